//! `statusdesk`: the status pages of gateways, and a page for each object with forms by which a user whom a
//! proxy names sends an operator's commands. It listens on loopback, and serves until it is stopped. Each
//! command that is sent is a line on standard output. Where it can't serve, it ends with an exit status
//! and the cause on standard error.
#![tactic(auto)]

ghost use Rattle.std.specs.Prelude.{◌≡◌, IfErr, IfOk};
ghost use Rattle.statusdesk.specs.Guarding.{IsGuardOf};

mod commanding;
mod fault;
mod marking;
mod marks;
mod notes;
mod objects;
mod pages;
mod posts;
mod responses;
mod said;
mod service;

use clap::Error;
use desk_guard::{Guard, SentForms};
use desk_words::{Settings, WordsFault, read_words};
use fault::{DeskFault, words_fault};
use gate_streams::end_with;
use page_watching::Watch;
use posts::posts_at;
use service::Desk;
use status_serving::{Heading, ServeFault, Site, serve};
use std::alloc::Global;
use std::net::{Net, SocketAddr, TcpListener, TcpStream};
use std::process::ExitCode;
use std::random::RandomSource;
use std::rt::Env;
use std::sync::atomic::AtomicU64;
use std::sync::{Mutex, Wait};
use std::thread::Threads;
use std::time::Clock;
use std::{env, io, thread};

// How many threads answer browsers.
const WORKERS: u32 = 8;

fn arguments(rt: &(impl Env + AllocGlobal)) -> io::Result<Vec<String>> {
    let mut words = env::args(rt)?;
    let _name = words.next();
    Ok(words.collect(rt.alloc())?)
}

// A listener at an address, and the address that it reports: the same, but for a port of 0.
fn bind<R: Net<Listener = TcpListener, Stream = TcpStream>>(
    rt: &R,
    address: SocketAddr,
) -> io::Result<(TcpListener, SocketAddr)> {
    let listener = TcpListener::bind(rt, address)?;
    let bound = listener.local_addr()?;
    Ok((listener, bound))
}

// Prints the help or the version that the words ask for, or fails with clap's message about them.
fn refuse(rt: &(impl Print + AllocGlobal), error: &Error) -> Result<(), DeskFault> {
    let text = error.to_string(rt.alloc())?;
    if error.use_stderr() {
        return Err(DeskFault::Refused(text));
    }
    print!(rt; "{text}").map_err(|_| DeskFault::WriteFault)
}

// The key of the tokens of this run.
fn new_key(rt: &impl RandomSource) -> Result<[u8; 64], DeskFault> {
    let mut key = [0; 64];
    match rt.fill_bytes(&mut key) {
        Ok(()) => Ok(key),
        Err(_) => Err(DeskFault::NoKey),
    }
}

fn guard_of<'a>(
    alloc: Global,
    settings: &'a Settings<'a>,
    key: [u8; 64],
) -> Result<Guard<'a>, DeskFault>
    ensures guard { IfOk result (IsGuardOf settings.now key) }
    ensures fault { IfErr result (λ fault. fault ≡ DeskFault.OutOfMemory) }
{
    Ok(Guard {
        hosts: Vec::from_slice(alloc, settings.hosts.as_slice())?,
        user_header: settings.user_header,
        users: Vec::from_slice(alloc, settings.users.as_slice())?,
        key,
    })
}

// Serves a listener, while a thread for each gateway sends its orders.
fn serve_desk<
    R: Net<Listener = TcpListener, Stream = TcpStream>
        + Threads
        + Wait
        + Clock
        + RandomSource
        + Print
        + Sync,
>(listener: &TcpListener, every: u32, desk: &Desk<'_, R>) -> Result<(), ServeFault> {
    let rt = desk.site.rt;
    let alloc = desk.site.alloc;
    let posts = desk.posts;
    let printing = Mutex::new(());
    let printing = &printing;
    thread::scope(thread::scope_env(), rt, |scope| {
        let mut are_started = true;
        for post in posts {
            let started = scope.spawn(move || post.send_always(rt, alloc, printing));
            are_started &= started.is_ok();
        }
        let served = if are_started {
            serve(&desk.site, listener, WORKERS, every, desk)
        } else {
            Err(ServeFault::Spawn)
        };
        for post in posts {
            post.close(rt);
        }
        served
    })
}

// A listener at the address of the settings, which standard output names.
fn listen<R: Net<Listener = TcpListener, Stream = TcpStream> + Print + AllocGlobal>(
    rt: &R,
    settings: &Settings<'_>,
) -> Result<TcpListener, DeskFault> {
    let Ok((listener, address)) = bind(rt, settings.listen) else {
        return Err(DeskFault::Bind(settings.listen.to_string(rt.alloc())?));
    };
    match println!(rt; "listening {address}") {
        Ok(()) => Ok(listener),
        Err(_) => Err(DeskFault::WriteFault),
    }
}

fn run<
    R: Net<Listener = TcpListener, Stream = TcpStream>
        + Threads
        + Wait
        + Clock
        + RandomSource
        + Print
        + AllocGlobal
        + Sync,
>(rt: &R, settings: &Settings<'_>) -> Result<(), DeskFault> {
    let alloc = rt.alloc();
    let guard = guard_of(alloc, settings, new_key(rt)?)?;
    let listener = listen(rt, settings)?;
    let watch = Watch::new(alloc, settings.places.as_slice())?;
    let heading = Heading {
        title: settings.title,
        refresh: settings.refresh,
        marks: true,
    };
    let site = Site {
        rt,
        alloc,
        watch: &watch,
        heading,
    };
    let sent = Mutex::new(SentForms::new(alloc));
    let pages = AtomicU64::new(0);
    let posts = posts_at(alloc, settings.operators.as_slice())?;
    let desk = Desk {
        site,
        posts: posts.as_slice(),
        guard: &guard,
        sent: &sent,
        pages: &pages,
    };
    serve_desk(&listener, settings.every, &desk).map_err(DeskFault::from)
}

fn run_words<
    R: Net<Listener = TcpListener, Stream = TcpStream>
        + Threads
        + Wait
        + Clock
        + RandomSource
        + Env
        + Print
        + AllocGlobal
        + Sync,
>(rt: &R) -> Result<(), DeskFault> {
    let words = arguments(rt).map_err(|error| words_fault(&error))?;
    match read_words(rt.alloc(), words.as_slice()) {
        Ok(settings) => run(rt, &settings),
        Err(WordsFault::Refused(error)) => refuse(rt, &error),
        Err(WordsFault::Bad(value)) => Err(DeskFault::Bad(value)),
        Err(WordsFault::OutOfMemory) => Err(DeskFault::OutOfMemory),
    }
}

fn main(rt: HostRuntime) -> ExitCode {
    let fault = run_words(&rt).err();
    ExitCode::from(end_with(&fault, &mut rt.stderr().lock()))
}
