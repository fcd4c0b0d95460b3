ghost use Rattle.std.specs.Prelude.{◌≡◌, ◌≢◌};
ghost use Rattle.std.specs.IoError.{error_kind};
ghost use Rattle.operator_setup.specs.Fault.{cause, page_text, request_text};

use gate_model::Text;
use gate_streams::{Fault, Sink, put_line};
use operator_commands::RequestFault;
use page_fetching::FetchFault;
use std::alloc::{AllocError, AllocFailed};
use std::io;
use std::io::ErrorKind;

/// Why the program ends before it has done what the words ask for.
#[derive(Drop)]
pub enum ControlFault {
    /// The words after the program's name ask for nothing.
    BadWords,
    /// A word is no UTF-8.
    NotUtf8,
    /// An address is no IP address and port.
    BadAddress,
    /// `--wait` is no number of 1 to 3600.
    BadWait,
    /// `--age` is no number.
    BadAge,
    /// `--interval` is no number of 1 to 3600.
    BadInterval,
    /// `status --state` is no state, and none of the other words.
    BadState,
    /// The configuration can't be read.
    Unreadable,
    /// A file is faulty: which one, and its fault.
    BadFile(Text),
    /// The words are no command.
    Request(RequestFault),
    /// `--all` stands beside more than two words.
    NoObject,
    /// There is no text of the status page.
    NoPage(FetchFault),
    /// The text at the address of the pages is no status page.
    BadPage,
    /// The clock can't be read.
    NoClock,
    /// Memory ran out.
    OutOfMemory,
    /// The output can't be written.
    WriteFault,
}

impl From<AllocError> for ControlFault {
    ghost use Rattle.operator_setup.specs.declared.fault.ControlFault.TheVariants.{OutOfMemory};

    ghost from_gives = { λ _ fault. fault ≡ OutOfMemory };

    fn from(_: AllocError) -> ControlFault {
        ControlFault::OutOfMemory
    }
}

impl<T: Drop> From<AllocFailed<T>> for ControlFault {
    ghost use Rattle.operator_setup.specs.declared.fault.ControlFault.TheVariants.{OutOfMemory};

    ghost from_gives = { λ _ fault. fault ≡ OutOfMemory };

    fn from(_: AllocFailed<T>) -> ControlFault {
        ControlFault::OutOfMemory
    }
}

fn request_text(fault: RequestFault) -> &'static [u8]
    ensures { result.now ≡ request_text fault }
{
    match fault {
        RequestFault::BadState => {
            b"--state is OK, WARNING, CRITICAL or UNKNOWN; of a host UP, DOWN or UNREACHABLE"
        }
        RequestFault::BadSetting => b"passive is on or off",
        RequestFault::ServicesOfService => b"--services is of a host, and a service is named",
        RequestFault::BadTime => b"a time is in seconds since 1970",
        RequestFault::BadSpan => b"a span is a number with s, m, h or d, as 90m",
        RequestFault::BadId => b"an id is a number",
        RequestFault::NoEnd => b"downtime ends by one of --for and --until",
        RequestFault::NoCommand => b"bad words",
    }
}

fn page_text(fault: FetchFault) -> &'static [u8]
    ensures { result.now ≡ page_text fault }
{
    match fault {
        FetchFault::Unreachable => b"no status page: the gateway accepts no connection",
        FetchFault::TooSlow => b"no status page: it didn't end in time",
        FetchFault::TooLong => b"no status page: it is longer than 64 MiB",
        FetchFault::Broken => b"no status page: the connection broke",
        FetchFault::OutOfMemory => b"out of memory",
    }
}

/// The cause of a fault.
pub fn cause(fault: &ControlFault) -> &[u8]
    ensures { result.now ≡ cause fault.now }
{
    match fault {
        ControlFault::BadWords => b"bad words",
        ControlFault::NotUtf8 => b"a word is no UTF-8: write its bytes as \\xe9, with --escaped",
        ControlFault::BadAddress => b"an address is an IP address and a port",
        ControlFault::BadWait => b"--wait is 1 to 3600",
        ControlFault::BadAge => b"--age is a number of seconds",
        ControlFault::BadInterval => b"--interval is 1 to 3600",
        ControlFault::BadState => b"--state is a state, or all, problems, unhandled or stale",
        ControlFault::Unreadable => b"the configuration can't be read",
        ControlFault::NoObject => b"--all is of a host, or of a host and a service",
        ControlFault::BadPage => b"what the pages port gives is no status page",
        ControlFault::NoClock => b"the clock can't be read",
        ControlFault::OutOfMemory => b"out of memory",
        ControlFault::WriteFault => b"the output can't be written",
        ControlFault::BadFile(text) => text.bytes(),
        ControlFault::Request(fault) => request_text(*fault),
        ControlFault::NoPage(fault) => page_text(*fault),
    }
}

impl Fault for ControlFault {
    ghost use Rattle.operator_setup.specs.Fault.{status_of, message_of};

    ghost status_of = { status_of };

    ghost message_of = { message_of };

    /// 2 for the words and the configuration, and otherwise 3. Own rule.
    fn status(&self) -> u8 {
        match self {
            ControlFault::BadWords
            | ControlFault::NotUtf8
            | ControlFault::BadAddress
            | ControlFault::BadWait
            | ControlFault::BadAge
            | ControlFault::BadInterval
            | ControlFault::BadState
            | ControlFault::Unreadable
            | ControlFault::BadFile(_)
            | ControlFault::Request(_)
            | ControlFault::NoObject => 2,
            ControlFault::NoPage(_)
            | ControlFault::BadPage
            | ControlFault::NoClock
            | ControlFault::OutOfMemory
            | ControlFault::WriteFault => 3,
        }
    }

    /// Own rule: the text of the line.
    fn report<E: Sink>(&self, errors: &mut E) -> io::Result<()> {
        put_line(errors, b"nscagatectl: ", cause(self))
    }
}

/// The fault of an error on the words: out of memory, or a word that is no text.
pub fn words_fault(error: &io::Error) -> ControlFault
    ensures memory { error_kind error.now ≡ ErrorKind.OutOfMemory
        → result ≡ ControlFault.OutOfMemory }
    ensures other { error_kind error.now ≢ ErrorKind.OutOfMemory
        → result ≡ ControlFault.NotUtf8 }
{
    match error.kind() {
        ErrorKind::OutOfMemory => ControlFault::OutOfMemory,
        _ => ControlFault::NotUtf8,
    }
}
