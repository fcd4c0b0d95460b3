ghost use Rattle.std.specs.Prelude.{◌≡◌, ℕ, List, OnOk, OnErr};
ghost use Rattle.gate_streams.specs.Fault.{status_at_end, IsFaultReported};
ghost use Rattle.gate_streams.specs.Sink.{Delivers, FailsOnce};

use crate::sink::Sink;
use std::io;

/// Why a command of the program stops: its exit status, and the one line that reports it.
pub trait Fault {
    // The exit status of a program that stops so.
    ghost status_of: { Self → ℕ };

    // The line that reports the fault.
    ghost message_of: { Self → List ℕ };

    /// The exit status of a program that stops so.
    fn status(&self) -> u8
        ensures { result ≡ status_of self.now };

    /// Writes the one line that reports the fault, and flushes.
    ///
    /// An error is that of the call of `errors` that failed; no other call is made after it.
    fn report<E: Sink>(&self, errors: &mut E) -> io::Result<()>
        ensures ok { OnOk result (Delivers (E.state errors.old) (E.state errors.new)
            (message_of self.now)) }
        ensures err { OnErr result (FailsOnce (E.state errors.old) (E.state errors.new)) };
}

/// Ends a command: reports its fault, where it has one, in one line on `errors`, and returns the exit
/// status, which is 0 without a fault. That the line can't be written changes nothing.
pub fn end_with<F: Fault, E: Sink>(fault: &Option<F>, errors: &mut E) -> u8
    ensures status { result ≡ status_at_end F.status_of fault.now }
    ensures reported { IsFaultReported F.message_of fault.now (E.state errors.old)
        (E.state errors.new) }
{
    let Some(fault) = fault else {
        return 0;
    };
    let _ = fault.report(errors);
    fault.status()
}
