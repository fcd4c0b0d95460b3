ghost use Rattle.std.specs.Prelude.{◌≡◌};

use gate_streams::{Fault, Sink, put_last};
use std::alloc::AllocError;
use std::io;
use std::io::ErrorKind;
use thiserror::Error;

/// Why the words ask for nothing.
#[derive(Clone, Copy, Debug, Error)]
pub enum WordsFault {
    /// The words are neither `replay` nor `serve` with `--config` and a path, or can't be read as
    /// text. A word that asks for help is among them. Own rule.
    #[error("bad arguments")]
    BadArguments,
    /// Memory ran out.
    #[error("out of memory")]
    OutOfMemory,
}

impl From<AllocError> for WordsFault {
    ghost use Rattle.gate_words.specs.declared.fault.WordsFault.TheVariants.{OutOfMemory};

    ghost from_gives = { λ _ fault. fault ≡ OutOfMemory };

    fn from(_error: AllocError) -> WordsFault {
        WordsFault::OutOfMemory
    }
}

impl From<io::Error> for WordsFault {
    ghost use Rattle.gate_words.specs.Fault.{IsUnread};

    ghost from_gives = { λ error fault. IsUnread error fault };

    /// The fault that an error of `env::args` is: out of memory, or words that are no text.
    fn from(error: io::Error) -> WordsFault {
        match error.kind() {
            ErrorKind::OutOfMemory => WordsFault::OutOfMemory,
            _ => WordsFault::BadArguments,
        }
    }
}

impl Fault for WordsFault {
    ghost use Rattle.gate_words.specs.Fault.{status_of, message_of};

    ghost status_of = { status_of };

    ghost message_of = { message_of };

    /// 2, or 3 for memory. Own rule.
    fn status(&self) -> u8 {
        match self {
            WordsFault::BadArguments => 2,
            WordsFault::OutOfMemory => 3,
        }
    }

    /// Own rule: the text of the line.
    fn report<E: Sink>(&self, errors: &mut E) -> io::Result<()> {
        let line: &[u8] = match self {
            WordsFault::BadArguments => b"nscagate: bad arguments\n",
            WordsFault::OutOfMemory => b"nscagate: OutOfMemory\n",
        };
        put_last(errors, line)
    }
}
