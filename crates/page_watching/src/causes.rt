//! Why a gateway shows no new page, in the words of its alarm.

ghost use Rattle.std.specs.Prelude.{◌≡◌, ◌++◌, IfOk, codes, string_bytes};
ghost use Rattle.std.specs.Fmt.{decimal};
ghost use Rattle.page_watching.specs.Causes.{fetch_cause, read_cause, cause_of, old_cause};

use page_fetching::FetchFault;
use status_memory::Alarm;
use status_reading::{ReadFault, row_fault_words};
use std::alloc::{AllocError, Global};

/// Why a fetch gave no page.
#[derive(Clone, Copy)]
pub enum NoPage {
    /// It gave no text.
    Fetch(FetchFault),
    /// The text is no page.
    Read(ReadFault),
}

fn fetch_words(fault: FetchFault) -> &'static str
    ensures { result.now ≡ fetch_cause fault }
{
    match fault {
        FetchFault::Unreachable => "it can't be reached",
        FetchFault::TooSlow => "its page takes too long",
        FetchFault::TooLong => "its page is too long",
        FetchFault::Broken => "its page can't be read",
        FetchFault::OutOfMemory => "out of memory",
    }
}

fn bad_line(alloc: Global, number: usize) -> Result<String, AllocError>
    ensures { IfOk result (λ cause. string_bytes cause
        ≡ codes "its page is damaged or cut off at line " ++ decimal number) }
{
    format!(in alloc; "its page is damaged or cut off at line {number}")
}

fn bad_row(alloc: Global, number: usize, words: &str) -> Result<String, AllocError>
    ensures { IfOk result (λ cause. string_bytes cause
        ≡ codes "its page is damaged or cut off at line " ++ decimal number ++ codes ": " ++ words.now) }
{
    let mut cause = bad_line(alloc, number)?;
    cause.push_str(": ")?;
    cause.push_str(words)?;
    Ok(cause)
}

/// The cause where a text is no page. The only error is out of memory.
pub fn read_cause(alloc: Global, fault: ReadFault) -> Result<String, AllocError>
    ensures { IfOk result (λ cause. string_bytes cause ≡ read_cause fault) }
{
    match fault {
        ReadFault::NoStatus => String::from_str(alloc, "it does not show a status page"),
        ReadFault::BadLine(number) => bad_line(alloc, number),
        ReadFault::BadRow(number, fault) => bad_row(alloc, number, row_fault_words(fault)),
        ReadFault::OutOfMemory => String::from_str(alloc, "out of memory"),
    }
}

/// The cause of a memory's fault. The only error is out of memory.
pub fn cause_of(alloc: Global, fault: Option<NoPage>) -> Result<String, AllocError>
    ensures { IfOk result (λ cause. string_bytes cause ≡ cause_of fault) }
{
    match fault {
        Some(NoPage::Fetch(fault)) => String::from_str(alloc, fetch_words(fault)),
        Some(NoPage::Read(fault)) => read_cause(alloc, fault),
        None => String::from_str(alloc, "its page was not fetched in time"),
    }
}

/// The cause why a page is old, by the alarm that says so. The only error is out of memory.
pub fn old_cause(alloc: Global, alarm: Alarm, fault: Option<NoPage>) -> Result<String, AllocError>
    ensures { IfOk result (λ cause. string_bytes cause ≡ old_cause alarm fault) }
{
    match alarm {
        Alarm::StandsStill(_) => String::from_str(alloc, "it stands still"),
        Alarm::ClockAhead(_) => String::from_str(alloc, "its clock is ahead"),
        Alarm::NoPage
        | Alarm::NoNewPage(_)
        | Alarm::Closing
        | Alarm::FewerObjects(_, _)
        | Alarm::OtherObjects => cause_of(alloc, fault),
    }
}
