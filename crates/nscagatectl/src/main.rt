//! `nscagatectl`: an operator's commands to a gateway, and their outcome. It reads the gateway's
//! status page, reports what the gateway would refuse, sends the command over the operators port,
//! reads its answer, and watches the page until it shows the effect.
#![tactic(auto)]

mod running;

use gate_streams::end_with;
use operator_setup::{ControlFault, words_fault};
use running::run_words;
use std::env;
use std::io::BufWriter;
use std::process::ExitCode;
use std::rt::Env;

fn arguments(rt: &(impl Env + AllocGlobal)) -> Result<Vec<String>, ControlFault> {
    let mut words = env::args(rt).map_err(|error| words_fault(&error))?;
    let _name = words.next();
    Ok(words.collect(rt.alloc())?)
}

fn main(rt: HostRuntime) -> ExitCode {
    let mut errors = rt.stderr().lock();
    let ended = match arguments(&rt) {
        Ok(words) => match BufWriter::new(rt.alloc(), rt.stdout().lock()) {
            Ok(mut output) => {
                let alloc = rt.alloc();
                let ended = run_words(&rt, alloc, words.as_slice(), &mut output, &mut errors);
                // What a failed write left in the buffer is never written.
                let _unwritten = output.into_parts();
                ended
            }
            Err(_) => Err(ControlFault::OutOfMemory),
        },
        Err(fault) => Err(fault),
    };
    let status = match ended {
        Ok(status) => status,
        Err(fault) => end_with(&Some(fault), &mut errors),
    };
    ExitCode::from(status)
}
