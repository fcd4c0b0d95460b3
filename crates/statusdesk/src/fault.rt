ghost use Rattle.std.specs.Prelude.{◌≡◌, ◌≢◌};
ghost use Rattle.std.specs.IoError.{error_kind};
ghost use Rattle.statusdesk.specs.Fault.{bad_line};

use desk_words::BadValue;
use gate_streams::{Fault, Sink, put_last, put_line};
use status_serving::ServeFault;
use std::alloc::AllocError;
use std::io;
use std::io::ErrorKind;

/// Why the program doesn't serve.
#[derive(Drop)]
pub enum DeskFault {
    /// The words after the program's name can't be read as text.
    BadArguments,
    /// clap refuses the words, with this message of whole lines.
    Refused(String),
    /// An option can't have this value.
    Bad(BadValue),
    /// This address can't be bound.
    Bind(String),
    /// Memory ran out.
    OutOfMemory,
    /// The system gives no random bytes.
    NoKey,
    /// No thread can be started.
    Spawn,
    /// The output can't be written.
    WriteFault,
}

impl From<AllocError> for DeskFault {
    ghost use Rattle.statusdesk.specs.declared.fault.DeskFault.TheVariants.{OutOfMemory};

    ghost from_gives = { λ _ fault. fault ≡ OutOfMemory };

    fn from(_: AllocError) -> DeskFault {
        DeskFault::OutOfMemory
    }
}

impl From<ServeFault> for DeskFault {
    ghost use Rattle.statusdesk.specs.Fault.{desk_fault};

    ghost from_gives = { λ fault other. other ≡ desk_fault fault };

    fn from(fault: ServeFault) -> DeskFault {
        match fault {
            ServeFault::Spawn => DeskFault::Spawn,
            ServeFault::OutOfMemory => DeskFault::OutOfMemory,
        }
    }
}

// The line that reports a bad value.
fn bad_line(value: BadValue) -> &'static [u8]
    ensures { result.now ≡ bad_line value }
{
    match value {
        BadValue::Listen => b"statusdesk: --listen: not an IP address and a port\n",
        BadValue::NotLoopback => b"statusdesk: --listen: not an address of loopback\n",
        BadValue::Refresh => b"statusdesk: --refresh: not 0 or 2 to 3600\n",
        BadValue::Every => b"statusdesk: --every: not 1 to 30\n",
        BadValue::Gateway => b"statusdesk: --gateway or --operators: not [NAME=]ADDRESS:PORT\n",
        BadValue::SameName => b"statusdesk: --gateway or --operators: two of one name\n",
        BadValue::NoGateway => b"statusdesk: --gateway: missing\n",
        BadValue::Operators => b"statusdesk: --operators: not one for each --gateway\n",
        BadValue::NoUsers => b"statusdesk: --users: missing\n",
    }
}

impl Fault for DeskFault {
    ghost use Rattle.statusdesk.specs.Fault.{status_of, message_of};

    ghost status_of = { status_of };

    ghost message_of = { message_of };

    /// 2 for the words, 4 where the address can't be bound, and otherwise 3. Own rule.
    fn status(&self) -> u8 {
        match self {
            DeskFault::BadArguments | DeskFault::Refused(_) | DeskFault::Bad(_) => 2,
            DeskFault::Bind(_) => 4,
            DeskFault::OutOfMemory | DeskFault::NoKey | DeskFault::Spawn | DeskFault::WriteFault =>
                3,
        }
    }

    /// Own rule: the text of the line.
    fn report<E: Sink>(&self, errors: &mut E) -> io::Result<()> {
        match self {
            DeskFault::BadArguments => put_last(errors, b"statusdesk: bad arguments\n"),
            DeskFault::Refused(message) => put_last(errors, message.as_bytes()),
            DeskFault::Bad(value) => put_last(errors, bad_line(*value)),
            DeskFault::Bind(address) => put_line(errors, b"statusdesk: bind ", address.as_bytes()),
            DeskFault::OutOfMemory => put_last(errors, b"statusdesk: OutOfMemory\n"),
            DeskFault::NoKey => put_last(errors, b"statusdesk: NoKey\n"),
            DeskFault::Spawn => put_last(errors, b"statusdesk: Spawn\n"),
            DeskFault::WriteFault => put_last(errors, b"statusdesk: WriteFault\n"),
        }
    }
}

/// The fault of an error on the words: out of memory, or words that are no text.
pub fn words_fault(error: &io::Error) -> DeskFault
    ensures memory { error_kind error.now ≡ ErrorKind.OutOfMemory
        → result ≡ DeskFault.OutOfMemory }
    ensures other { error_kind error.now ≢ ErrorKind.OutOfMemory
        → result ≡ DeskFault.BadArguments }
{
    match error.kind() {
        ErrorKind::OutOfMemory => DeskFault::OutOfMemory,
        _ => DeskFault::BadArguments,
    }
}
