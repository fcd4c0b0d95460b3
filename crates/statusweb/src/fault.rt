ghost use Rattle.std.specs.Prelude.{◌≡◌, ◌≢◌};
ghost use Rattle.std.specs.IoError.{error_kind};
ghost use Rattle.statusweb.specs.Fault.{bad_line};

use crate::words::BadValue;
use gate_streams::{Fault, Sink, put_last, put_line};
use status_serving::ServeFault;
use std::alloc::AllocError;
use std::io;
use std::io::ErrorKind;

/// Why the program doesn't serve.
#[derive(Drop)]
pub enum WebFault {
    /// The words after the program's name can't be read as text.
    BadArguments,
    /// clap refuses the words, with this message of whole lines.
    Refused(String),
    /// An option can't have this value.
    Bad(BadValue),
    /// This address can't be bound.
    Bind(String),
    /// Memory ran out.
    OutOfMemory,
    /// No thread can be started.
    Spawn,
    /// The output can't be written.
    WriteFault,
}

impl From<AllocError> for WebFault {
    ghost use Rattle.statusweb.specs.declared.fault.WebFault.TheVariants.{OutOfMemory};

    ghost from_gives = { λ _ fault. fault ≡ OutOfMemory };

    fn from(_: AllocError) -> WebFault {
        WebFault::OutOfMemory
    }
}

impl From<ServeFault> for WebFault {
    ghost use Rattle.statusweb.specs.Fault.{web_fault};

    ghost from_gives = { λ fault other. other ≡ web_fault fault };

    fn from(fault: ServeFault) -> WebFault {
        match fault {
            ServeFault::Spawn => WebFault::Spawn,
            ServeFault::OutOfMemory => WebFault::OutOfMemory,
        }
    }
}

// The line that reports a bad value.
fn bad_line(value: BadValue) -> &'static [u8]
    ensures { result.now ≡ bad_line value }
{
    match value {
        BadValue::Listen => b"statusweb: --listen: not an IP address and a port\n",
        BadValue::Refresh => b"statusweb: --refresh: not 0 or 2 to 3600\n",
        BadValue::Every => b"statusweb: --every: not 1 to 30\n",
        BadValue::Gateway => b"statusweb: --gateway: not [NAME=]ADDRESS:PORT\n",
        BadValue::SameName => b"statusweb: --gateway: two of one name\n",
        BadValue::NoGateway => b"statusweb: --gateway: missing\n",
    }
}

impl Fault for WebFault {
    ghost use Rattle.statusweb.specs.Fault.{status_of, message_of};

    ghost status_of = { status_of };

    ghost message_of = { message_of };

    /// 2 for the words, 4 where the address can't be bound, and otherwise 3. Own rule.
    fn status(&self) -> u8 {
        match self {
            WebFault::BadArguments | WebFault::Refused(_) | WebFault::Bad(_) => 2,
            WebFault::Bind(_) => 4,
            WebFault::OutOfMemory | WebFault::Spawn | WebFault::WriteFault => 3,
        }
    }

    /// Own rule: the text of the line.
    fn report<E: Sink>(&self, errors: &mut E) -> io::Result<()> {
        match self {
            WebFault::BadArguments => put_last(errors, b"statusweb: bad arguments\n"),
            WebFault::Refused(message) => put_last(errors, message.as_bytes()),
            WebFault::Bad(value) => put_last(errors, bad_line(*value)),
            WebFault::Bind(address) => put_line(errors, b"statusweb: bind ", address.as_bytes()),
            WebFault::OutOfMemory => put_last(errors, b"statusweb: OutOfMemory\n"),
            WebFault::Spawn => put_last(errors, b"statusweb: Spawn\n"),
            WebFault::WriteFault => put_last(errors, b"statusweb: WriteFault\n"),
        }
    }
}

/// The fault of an error on the words: out of memory, or words that are no text.
pub fn words_fault(error: &io::Error) -> WebFault
    ensures memory { error_kind error.now ≡ ErrorKind.OutOfMemory
        → result ≡ WebFault.OutOfMemory }
    ensures other { error_kind error.now ≢ ErrorKind.OutOfMemory
        → result ≡ WebFault.BadArguments }
{
    match error.kind() {
        ErrorKind::OutOfMemory => WebFault::OutOfMemory,
        _ => WebFault::BadArguments,
    }
}
