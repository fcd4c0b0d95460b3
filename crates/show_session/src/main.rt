//! Serves the bytes on standard input as one connection, or as one after another of a size, or as one of
//! each length, and prints what came of each in one line:
//!
//!     STOP | ANSWERS | WRITTEN | QUEUED
//!
//! The first word is `packets` or `lines`; each further one is a setting, as `moment=1500`.
#![tactic(auto)]

mod devices;
mod printing;
mod serving;
mod settings;
mod sweeping;

use crate::printing::print_outcome;
use crate::serving::serve;
use crate::settings::{Settings, settings_of};
use crate::sweeping::run_every;
use gate_streams::{Sink, Source};
use std::alloc::Global;
use std::io::{BufReader, BufWriter};
use std::process::ExitCode;
use std::rt::Env;
use std::{env, io};

fn words(rt: &(impl Env + AllocGlobal)) -> io::Result<Vec<String>> {
    let mut words = env::args(rt)?;
    let _name = words.next();
    Ok(words.collect(rt.alloc())?)
}

// Reads so many bytes, or all that is left where it is less.
fn read_most(alloc: Global, input: &mut impl Source, most: usize) -> io::Result<Vec<u8>> {
    let mut piece = [0; 4096];
    let mut stream = Vec::new(alloc);
    for _ in 0..u64::MAX {
        let asked = most.saturating_sub(stream.len()).min(piece.len());
        let count = input.take_some(&mut piece[..asked])?;
        if count == 0 {
            break;
        }
        stream.extend_from_slice(&piece[..count])?;
    }
    Ok(stream)
}

// Serves a stream, and prints the line.
fn run(
    alloc: Global,
    settings: &Settings,
    stream: &[u8],
    output: &mut impl Sink,
) -> io::Result<()> {
    let outcome = serve(alloc, settings, stream)?;
    let mut line = Vec::new(alloc);
    print_outcome(alloc, outcome, None, &mut line)?;
    output.put(&line)
}

// Serves each stream of the input, the last of which may be shorter.
fn run_each(
    alloc: Global,
    settings: &Settings,
    input: &mut impl Source,
    output: &mut impl Sink,
) -> io::Result<()> {
    for _ in 0..u64::MAX {
        let stream = read_most(alloc, input, settings.each as usize)?;
        if stream.is_empty() {
            break;
        }
        run(alloc, settings, &stream, output)?;
    }
    Ok(())
}

fn run_all(
    alloc: Global,
    settings: &Settings,
    input: &mut impl Source,
    output: &mut impl Sink,
) -> io::Result<()> {
    if settings.each > 0 {
        run_each(alloc, settings, input, output)?;
    } else {
        let stream = read_most(alloc, input, usize::MAX)?;
        if settings.every_end > 0 || settings.every_failure > 0 {
            run_every(alloc, settings, &stream, output)?;
        } else {
            run(alloc, settings, &stream, output)?;
        }
    }
    output.deliver()
}

fn main(rt: HostRuntime) -> io::Result<ExitCode> {
    let Some(settings) = settings_of(&words(&rt)?) else {
        let mut errors = rt.stderr().lock();
        errors.put(b"show_session: bad words\n")?;
        errors.deliver()?;
        return Ok(ExitCode::from(2));
    };
    let mut input = BufReader::new(rt.alloc(), rt.stdin().lock())?;
    let mut output = BufWriter::new(rt.alloc(), rt.stdout().lock())?;
    run_all(rt.alloc(), &settings, &mut input, &mut output)?;
    Ok(ExitCode::SUCCESS)
}
