//! `statusweb`: a web server that shows the status pages of one or more gateways. It listens where
//! `--listen` says, reads the page of each `--gateway` again and again, and serves until it is stopped.
//! Where it can't serve, it ends with an exit status and the cause on standard error.
#![tactic(auto)]

mod fault;
mod service;
mod words;

use clap::Error;
use fault::{WebFault, words_fault};
use gate_streams::end_with;
use page_watching::Watch;
use service::Web;
use status_serving::{Heading, ServeFault, Site, serve};
use std::net::{Net, SocketAddr, TcpListener, TcpStream};
use std::process::ExitCode;
use std::random::RandomSource;
use std::rt::Env;
use std::sync::Wait;
use std::thread::Threads;
use std::time::Clock;
use std::{env, io};
use words::{Settings, WordsFault, read_words};

// How many threads answer browsers.
const WORKERS: u32 = 8;

fn arguments(rt: &(impl Env + AllocGlobal)) -> io::Result<Vec<String>> {
    let mut words = env::args(rt)?;
    let _name = words.next();
    Ok(words.collect(rt.alloc())?)
}

// A listener at an address, and the address that it reports: the same, but for a port of 0.
fn bind<R: Net<Listener = TcpListener, Stream = TcpStream>>(
    rt: &R,
    address: SocketAddr,
) -> io::Result<(TcpListener, SocketAddr)> {
    let listener = TcpListener::bind(rt, address)?;
    let bound = listener.local_addr()?;
    Ok((listener, bound))
}

// Prints the help or the version that the words ask for, or fails with clap's message about them.
fn refuse(rt: &(impl Print + AllocGlobal), error: &Error) -> Result<(), WebFault> {
    let text = error.to_string(rt.alloc())?;
    if error.use_stderr() {
        return Err(WebFault::Refused(text));
    }
    print!(rt; "{text}").map_err(|_| WebFault::WriteFault)
}

fn serve_on<
    R: Net<Listener = TcpListener, Stream = TcpStream>
        + Threads
        + Wait
        + Clock
        + RandomSource
        + AllocGlobal
        + Sync,
>(
    rt: &R,
    listener: &TcpListener,
    settings: &Settings<'_>,
    watch: &Watch<'_>,
) -> Result<(), ServeFault> {
    let heading = Heading {
        title: settings.title,
        refresh: settings.refresh,
        marks: false,
    };
    let site = Site {
        rt,
        alloc: rt.alloc(),
        watch,
        heading,
    };
    let hosts = settings.hosts.as_slice();
    serve(
        &site,
        listener,
        WORKERS,
        settings.every,
        &Web { site, hosts },
    )
}

fn run<
    R: Net<Listener = TcpListener, Stream = TcpStream>
        + Threads
        + Wait
        + Clock
        + RandomSource
        + Print
        + AllocGlobal
        + Sync,
>(rt: &R, settings: &Settings<'_>) -> Result<(), WebFault> {
    let alloc = rt.alloc();
    let Ok((listener, address)) = bind(rt, settings.listen) else {
        return Err(WebFault::Bind(settings.listen.to_string(alloc)?));
    };
    println!(rt; "listening {address}").map_err(|_| WebFault::WriteFault)?;
    let watch = Watch::new(alloc, settings.places.as_slice())?;
    serve_on(rt, &listener, settings, &watch)?;
    Ok(())
}

fn run_words<
    R: Net<Listener = TcpListener, Stream = TcpStream>
        + Threads
        + Wait
        + Clock
        + RandomSource
        + Env
        + Print
        + AllocGlobal
        + Sync,
>(rt: &R) -> Result<(), WebFault> {
    let words = arguments(rt).map_err(|error| words_fault(&error))?;
    match read_words(rt.alloc(), words.as_slice()) {
        Ok(settings) => run(rt, &settings),
        Err(WordsFault::Refused(error)) => refuse(rt, &error),
        Err(WordsFault::Bad(value)) => Err(WebFault::Bad(value)),
        Err(WordsFault::OutOfMemory) => Err(WebFault::OutOfMemory),
    }
}

fn main(rt: HostRuntime) -> ExitCode {
    let fault = run_words(&rt).err();
    ExitCode::from(end_with(&fault, &mut rt.stderr().lock()))
}
