//! What the words ask for, carried out.

ghost use Rattle.std.specs.Prelude.{◌≡◌, [], MatchResult};

use clap::Error;
use config_testing::test_config;
use gate_streams::Sink;
use operator_checking::{Wanted, report_unknown, run_check};
use operator_commands::{Asked, Options, Request, Task};
use operator_log::run_log;
use operator_ports::LiveGateway;
use operator_restoring::{restore, stop};
use operator_sending::carry_out_request;
use operator_setup::{ControlFault, Places, places_for, print};
use operator_showing::{run_status, run_watch};
use operator_words::{WordsFault, read_words};
use std::alloc::Global;
use std::fs::Files;
use std::net::{Net, TcpListener, TcpStream};
use std::rt::Env;
use std::time::Clock;

// Carries out a task that is no command, and returns the exit status.
fn run_task<R: Net<Listener = TcpListener, Stream = TcpStream> + Clock + Files, W: Sink, E: Sink>(
    rt: &R,
    alloc: Global,
    options: &Options,
    task: &Task,
    output: &mut W,
    errors: &mut E,
) -> Result<u8, ControlFault> {
    match task {
        Task::Check {
            gateways,
            agents,
            age,
            keep,
        } => {
            let gateways = gateways.as_slice();
            let wanted = Wanted {
                gateways,
                agents,
                age,
                keep,
            };
            run_check(rt, alloc, options, wanted, output)
        }
        Task::Watch { interval } => {
            let mut gateway = gateway_at(rt, alloc, places_for(rt, alloc, options)?);
            run_watch(rt, alloc, options.json, interval, &mut gateway, output)
        }
        Task::Status { state, host } => {
            let places = places_for(rt, alloc, options)?;
            let name = places.pages.to_string(alloc)?;
            let mut gateway = gateway_at(rt, alloc, places);
            let wanted = (state, host);
            run_status(
                alloc,
                options.json,
                name.as_str(),
                wanted,
                &mut gateway,
                output,
            )
        }
        Task::TestConfig { file } => test_config(rt, alloc, file, output),
        Task::Log { file, since } => run_log(rt, alloc, file, since, options.json, output),
        Task::Stop { .. } => stop(rt, alloc, options, task, output, errors),
        Task::Restore { .. } => restore(rt, alloc, options, task, output, errors),
        Task::Command(_) => Err(ControlFault::BadWords),
    }
}

// The request of a task that is a command; any other task.
fn request_of(task: Task) -> Result<Request, Task>
    ensures { MatchResult result (λ request. task ≡ Task.Command request) (λ other. other ≡ task) }
{
    match task {
        Task::Command(request) => Ok(request),
        task => Err(task),
    }
}

// The gateway of these ports.
fn gateway_at<'a, R>(rt: &'a R, alloc: Global, places: Places) -> LiveGateway<'a, R>
    ensures operators { result.operators ≡ places.operators }
    ensures pages { result.pages ≡ places.pages }
    ensures seconds { result.seconds ≡ places.seconds }
    ensures nothing { result.done ≡ [] }
{
    LiveGateway::new(rt, alloc, places.operators, places.pages, places.seconds)
}

// Prints what clap writes of words that it refuses, or help or the version, and returns the exit
// status: 2, or 0 for help and the version.
fn refuse<W: Sink, E: Sink>(
    alloc: Global,
    error: &Error,
    output: &mut W,
    errors: &mut E,
) -> Result<u8, ControlFault> {
    let text = error.to_string(alloc)?;
    if error.use_stderr() {
        print(errors, text.as_bytes())?;
        Ok(2)
    } else {
        print(output, text.as_bytes())?;
        Ok(0)
    }
}

fn is_check(words: &[String]) -> bool {
    match words.first() {
        Some(word) => word.as_str() == "check",
        None => false,
    }
}

/// Carries out what the words after the program's name ask for, and returns the exit status.
pub fn run_words<
    R: Net<Listener = TcpListener, Stream = TcpStream> + Clock + Files + Env + AllocGlobal,
    W: Sink,
    E: Sink,
>(
    rt: &R,
    alloc: Global,
    words: &[String],
    output: &mut W,
    errors: &mut E,
) -> Result<u8, ControlFault> {
    match read_words(alloc, words) {
        Ok(asked) => {
            let Asked { options, task } = asked;
            let request = match request_of(task) {
                Ok(request) => request,
                Err(task) => return run_task(rt, alloc, &options, &task, output, errors),
            };
            let places = match places_for(rt, alloc, &options) {
                Ok(places) => places,
                Err(fault) => {
                    drop(request);
                    return Err(fault);
                }
            };
            let mut gateway = gateway_at(rt, alloc, places);
            carry_out_request(rt, alloc, &options, request, &mut gateway, output, errors)
        }
        Err(WordsFault::Refused(error)) if error.use_stderr() && is_check(words) => {
            report_unknown(output, b"bad words: see nscagatectl check --help")
        }
        Err(WordsFault::Refused(error)) => refuse(alloc, &error, output, errors),
        Err(WordsFault::NoCommand) => Err(ControlFault::BadWords),
        Err(WordsFault::OutOfMemory) => Err(ControlFault::OutOfMemory),
    }
}
