//! A gateway that is stopped, and what is kept of it.

ghost use Rattle.std.specs.Prelude.{◌≡◌, ◌⊎◌, ℕ, true, List, IfErr, IfOk, IfSome};
ghost use Rattle.operator_restoring.specs.Faults.{IsOutputFault, IsStopFault};
ghost use Rattle.operator_restoring.specs.Restored.{IsShown};
ghost use Rattle.operator_restoring.specs.Stopped.{IsAllKept, IsLogKept};
ghost use Rattle.operator_restoring.specs.inner.Kept.{IsKeptAs};

use gate_streams::Sink;
use operator_ports::Next;
use operator_restore::{is_whole, log_part};
use operator_setup::{ControlFault, print};
use status_reading::read_status_page;
use std::alloc::Global;

/// A gateway that is stopped, and the files that are kept of it.
pub trait Stopped {
    // The texts of its pages.
    ghost shows: { List ℕ → Type 0 };

    // What its daemon printed.
    ghost prints: { List ℕ → Type 0 };

    // The texts of the pages that are kept.
    ghost has_page: { List ℕ → Type 0 };

    // Those of the log pages.
    ghost has_log: { List ℕ → Type 0 };

    // It answered `closing`.
    ghost closes: { Type 0 };

    // Its process has ended.
    ghost ends: { Type 0 } = { Unit {0} };

    /// Its page before the close.
    fn page(&mut self, alloc: Global) -> Option<Vec<u8>>
        ensures { IfSome result (λ text. shows text.items) };

    /// Shuts it down: whether it answered `closing`. The error of this and of the others is `NoClock`.
    fn shut_down(&mut self, alloc: Global) -> Result<bool, ControlFault>
        ensures closed { IfOk result (λ is_closing. is_closing ≡ true → closes) }
        ensures fault { IfErr result (λ fault. fault ≡ ControlFault.NoClock) };

    /// The time begins within which its pages are waited for.
    fn begin(&mut self) -> Result<(), ControlFault>
        ensures { IfErr result (λ fault. fault ≡ ControlFault.NoClock) };

    /// Its next page, after a pause.
    fn next(&mut self, alloc: Global) -> Next
        ensures { IsShown shows result };

    /// Whether its process has ended within the time, where one is named.
    fn has_ended(&mut self, alloc: Global) -> Result<bool, ControlFault>
        ensures ended { IfOk result (λ has_ended. has_ended ≡ true → ends) }
        ensures fault { IfErr result (λ fault. fault ≡ ControlFault.NoClock) };

    /// What its daemon printed, if it can be read.
    fn printed(&mut self, alloc: Global) -> Option<Vec<u8>>
        ensures { IfSome result (λ text. prints text.items) };

    /// Waits a second.
    fn pause(&mut self);

    /// Keeps the text of a page; whether it is kept.
    fn keep_page(&mut self, alloc: Global, text: &[u8]) -> bool
        ensures { result ≡ true → has_page text.now };

    /// Keeps a log page; whether it is kept.
    fn keep_log(&mut self, alloc: Global, text: &[u8]) -> bool
        ensures { result ≡ true → has_log text.now };
}

// What was kept so far.
#[derive(Clone, Copy, PartialEq, Eq, PartialOrd, Ord)]
enum Kept {
    Nothing,
    /// A page from before the close.
    Page,
    /// The last page.
    LastPage,
    /// The log page.
    Log,
}

// The better of two.
fn better(one: Kept, other: Kept) -> Kept
    ensures { (result ≡ one) ⊎ (result ≡ other) }
{
    if one < other { other } else { one }
}

// Keeps a text that the gateway shows, if it is a page.
fn keep_text<S: Stopped>(alloc: Global, stopped: &mut S, text: Vec<u8>) -> Kept
    requires { S.shows text.items }
    ensures { IsKeptAs S.shows S.has_page S.prints S.has_log result }
{
    let Ok(page) = read_status_page(alloc, text.as_slice()) else {
        return Kept::Nothing;
    };
    if !stopped.keep_page(alloc, text.as_slice()) {
        Kept::Nothing
    } else if page.closing.is_some() {
        Kept::LastPage
    } else {
        Kept::Page
    }
}

// Keeps the page before the close, if there is one.
fn keep_first<S: Stopped>(alloc: Global, stopped: &mut S) -> Kept
    ensures { IsKeptAs S.shows S.has_page S.prints S.has_log result }
{
    match stopped.page(alloc) {
        Some(text) => keep_text(alloc, stopped, text),
        None => Kept::Nothing,
    }
}

// Keeps the pages of a gateway that ends, until there is none any more.
#[tactic(auto, using(crate::proofs::StopSteps::kept_better))]
fn keep_last<S: Stopped>(alloc: Global, stopped: &mut S) -> Result<Kept, ControlFault>
    ensures kept { IfOk result (IsKeptAs S.shows S.has_page S.prints S.has_log) }
    ensures fault { IfErr result (λ fault. fault ≡ ControlFault.NoClock) }
{
    stopped.begin()?;
    let mut kept = Kept::Nothing;
    for _turn in 0..u64::MAX {
        match stopped.next(alloc) {
            Next::Page(text) => {
                let next = keep_text(alloc, stopped, text);
                kept = better(kept, next);
            }
            Next::Gone | Next::Over => break,
        }
        if kept == Kept::LastPage {
            break;
        }
    }
    Ok(kept)
}

// Keeps the log page that the daemon has printed, where it is whole. Whether it is that of the kept
// page's gateway is tested where it is restored.
fn keep_log<S: Stopped>(alloc: Global, stopped: &mut S) -> bool
    ensures { result ≡ true → IsLogKept S.prints S.has_log }
{
    let Some(printed) = stopped.printed(alloc) else {
        return false;
    };
    let Some(text) = log_part(printed.as_slice()) else {
        return false;
    };
    match is_whole(alloc, text) {
        Ok(true) => stopped.keep_log(alloc, text),
        Ok(false) | Err(_) => false,
    }
}

// Keeps the log page once it is whole: the daemon prints it after its ports are closed, within this
// time.
fn await_log<S: Stopped>(alloc: Global, stopped: &mut S, seconds: u32) -> Kept
    ensures { IsKeptAs S.shows S.has_page S.prints S.has_log result }
{
    for _turn in 0..seconds {
        if keep_log(alloc, stopped) {
            return Kept::Log;
        }
        stopped.pause();
    }
    if keep_log(alloc, stopped) {
        Kept::Log
    } else {
        Kept::Nothing
    }
}

// Prints what the gateway doesn't do, and returns the exit status 3.
fn refuse<E: Sink>(errors: &mut E, text: &[u8]) -> Result<u8, ControlFault>
    ensures status { IfOk result (λ status. status ≡ 3) }
    ensures fault { IfErr result IsOutputFault }
{
    print(errors, text)?;
    Ok(3)
}

// Prints what is kept, and returns the exit status.
fn report<W: Sink, E: Sink>(kept: Kept, output: &mut W, errors: &mut E) -> Result<u8, ControlFault>
    ensures status { IfOk result (λ status. status ≡ 0
        → (kept ≡ Kept.LastPage) ⊎ (kept ≡ Kept.Log)) }
    ensures fault { IfErr result IsOutputFault }
{
    let text = match kept {
        Kept::Log | Kept::LastPage => {
            print(output, b"stopped: all that was queued is kept\n")?;
            return Ok(0);
        }
        Kept::Page => {
            b"nscagatectl: stopped, and what is kept may be older than the last answer\n".as_slice()
        }
        Kept::Nothing => b"nscagatectl: stopped, and nothing is kept\n".as_slice(),
    };
    print(errors, text)?;
    Ok(1)
}

/// Keeps a gateway's status page, shuts it down, and keeps its last page and, where `log_seconds` is
/// there, its log page, which is waited for so long. Returns the exit status: 0 where nothing that was
/// answered `queued` is missing, 1 where it has ended and what is kept may be older, and 3 where it
/// didn't answer or hasn't ended. An error is `NoClock`, `WriteFault` or `OutOfMemory`.
#[tactic(auto, using(crate::proofs::StopSteps::kept_better, crate::proofs::StopSteps::all_kept))]
pub fn stop_by<S: Stopped, W: Sink, E: Sink>(
    alloc: Global,
    stopped: &mut S,
    log_seconds: Option<u32>,
    output: &mut W,
    errors: &mut E,
) -> Result<u8, ControlFault>
    // The gateway answered `closing`, and its last page is kept, or its whole log page.
    ensures kept { IfOk result (λ status. status ≡ 0
        → S.closes × IsAllKept S.shows S.has_page S.prints S.has_log) }
    ensures ended { IfOk result (λ status. (status ≡ 3) ⊎ (S.closes × S.ends)) }
    ensures fault { IfErr result IsStopFault }
{
    let first = keep_first(alloc, stopped);
    if !stopped.shut_down(alloc)? {
        return refuse(
            errors,
            b"nscagatectl: SHUTDOWN_PROGRAM was not answered by closing\n",
        );
    }
    let last = keep_last(alloc, stopped)?;
    if !stopped.has_ended(alloc)? {
        return refuse(errors, b"nscagatectl: the gateway hasn't ended\n");
    }
    let log = match log_seconds {
        Some(seconds) => await_log(alloc, stopped, seconds),
        None => Kept::Nothing,
    };
    let pages = better(first, last);
    let kept = better(pages, log);
    let status = report(kept, output, errors)?;
    Ok(status)
}
