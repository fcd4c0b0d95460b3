ghost use Rattle.std.specs.Prelude.{◌≡◌, ℕ, List, Some, None, map, string_bytes};
ghost use Rattle.gate_replay.specs.Allowed.{IsAllowed};
ghost use Rattle.gate_words.specs.Words.{asked_of, replay, serve};
ghost use Rattle.gate_replay.specs.Replay.{IsReplayRun};
ghost use Rattle.nscagate.specs.Program.{IsRefused, IsServeRun};
ghost use Rattle.gate_printing.specs.Watching.{IsNoticed};

use crate::serving::serve;
use gate_replay::run_replay;
use gate_streams::{Sink, end_with};
use gate_words::{Request, read_words};
use std::alloc::Global;
use std::fs::{File, Files};
use std::io::Read;
use std::net::{Net, TcpListener, TcpStream};
use std::rt::Env;
use std::sync::Wait;
use std::thread::Threads;
use std::time::Clock;

/// Runs the program with the words after its name, and returns the exit status.
///
/// `replay` replays the script on `input`, as `run_replay` does. `serve --config PATH`, in any
/// spelling that `clap` reads, runs the daemon, as `serve` does, which takes what `input` holds where
/// standard input is a regular file; the last line on `errors` reports its fault, `notices` gets what is
/// said while nobody reads the log page, and `log_notices` what is wrong with the run's log. Any other
/// words, or none, are refused with status 2 and the line `nscagate: bad arguments` on `errors`: nothing is read
/// and nothing printed. Memory may run out before the words are known: the status is 3 and the line
/// `nscagate: OutOfMemory`. That a line can't be written to `errors` changes nothing. Own rules.
pub fn run_program<
    T: Files<File = File>
        + Net<Listener = TcpListener, Stream = TcpStream>
        + Threads
        + Wait
        + Clock
        + Sync
        + Env,
    R: Read,
    W: Sink,
    E: Sink,
    N: Sink + Send,
    L: Sink + Send + Drop,
>(
    rt: &T,
    alloc: Global,
    words: &[String],
    input: &mut R,
    output: &mut W,
    errors: &mut E,
    notices: &mut N,
    log_notices: L,
) -> u8
    ensures replay { asked_of (map string_bytes words.now) ≡ Some replay → IsReplayRun IsAllowed
        (R.remaining input.old) (W.state output.old) (W.state output.new) (E.state errors.old)
        (E.state errors.new) result }
    ensures serve { (path : List ℕ) → asked_of (map string_bytes words.now) ≡ Some (serve path)
        → IsServeRun (R.remaining input.old) (W.state output.old) (W.state output.new)
        (E.state errors.old) (E.state errors.new) result }
    ensures refused { asked_of (map string_bytes words.now) ≡ None → IsRefused (E.state errors.old)
        (E.state errors.new) result }

    ensures noticed { IsNoticed (N.state notices.old) (N.state notices.new) }
    ensures silent { asked_of (map string_bytes words.now) ≡ Some replay
        → notices.new ≡ notices.old }

    ensures unread { asked_of (map string_bytes words.now) ≡ None → input.new ≡ input.old }
    ensures unprinted { asked_of (map string_bytes words.now) ≡ None → output.new ≡ output.old }
{
    match read_words(alloc, words) {
        Ok(Request::Replay) => {
            drop(log_notices);
            run_replay(rt, alloc, input, output, errors)
        }
        Ok(Request::Serve(path)) => {
            let served = serve(rt, alloc, path, input, output, errors, notices, log_notices);
            end_with(&served.fault, errors)
        }
        Err(fault) => {
            drop(log_notices);
            end_with(&Some(fault), errors)
        }
    }
}
