//! The program: `nscagate replay` replays the script on standard input, and
//! `nscagate serve --config PATH` runs the daemon as the file configures it, until an operator shuts
//! it down. Each ends with an exit status, and with one line on standard error where it isn't 0.
#![tactic(auto)]

mod program;
mod serving;

use crate::program::run_program;
use gate_streams::end_with;
use gate_words::WordsFault;
use std::env;
use std::io::BufWriter;
use std::process::ExitCode;
use std::rt::Env;

fn arguments(rt: &(impl Env + AllocGlobal)) -> Result<Vec<String>, WordsFault> {
    let mut words = env::args(rt)?;
    let _name = words.next();
    Ok(words.collect(rt.alloc())?)
}

fn main(rt: HostRuntime) -> ExitCode {
    let mut errors = rt.stderr().lock();
    let status = match arguments(&rt) {
        Ok(words) => match BufWriter::new(rt.alloc(), rt.stdout().lock()) {
            Ok(mut output) => {
                let mut input = rt.stdin().lock();
                // Other handles on standard error: for the thread that watches the log page, and for
                // the one that writes the run's log.
                let mut notices = rt.stderr().lock();
                let log_notices = rt.stderr().lock();
                let status = run_program(
                    &rt,
                    rt.alloc(),
                    &words,
                    &mut input,
                    &mut output,
                    &mut errors,
                    &mut notices,
                    log_notices,
                );
                // What a failed write left in the buffer is never written.
                let _unwritten = output.into_parts();
                status
            }
            Err(_) => end_with(&Some(WordsFault::OutOfMemory), &mut errors),
        },
        Err(fault) => end_with(&Some(fault), &mut errors),
    };
    ExitCode::from(status)
}
