//! Plays one of five stories on a running queue, and prints what came of it line by line. The word
//! names the story: `close`, `full`, `worker`, `operator` or `gateway`; what each connection sends
//! stands on standard input. What finds no memory is named, and begun once more.
#![tactic(auto)]

mod closing;
mod fakes;
mod gateway;
mod parts;
mod printing;
mod working;

use crate::closing::{play_close, play_full};
use crate::gateway::play_gateway;
use crate::working::{play_operator, play_worker};
use std::alloc::Global;
use std::io::{Error, ErrorKind, Read, Write};
use std::rt::Env;
use std::sync::Wait;
use std::thread::Threads;
use std::time::Clock;
use std::{env, io};

fn word(rt: &(impl Env + AllocGlobal)) -> io::Result<Option<String>> {
    let mut words = env::args(rt)?;
    let _name = words.next();
    Ok(words.next())
}

// Plays the story of this name: None where there is none, and false where it could not begin.
fn play<R: Threads + Wait + Clock + Sync>(
    rt: &R,
    alloc: Global,
    name: &str,
    bytes: &[u8],
    shown: &mut Vec<u8>,
) -> Option<bool> {
    match name {
        "close" => Some(play_close(rt, alloc, shown)),
        "full" => Some(play_full(rt, alloc, shown)),
        "worker" => Some(play_worker(rt, alloc, bytes, shown)),
        "operator" => Some(play_operator(rt, alloc, bytes, shown)),
        "gateway" => Some(play_gateway(rt, alloc, bytes, shown)),
        _ => None,
    }
}

fn main(rt: HostRuntime) -> io::Result<()> {
    let name = word(&rt)?;
    let name = name.as_deref().unwrap_or("");
    let mut bytes = Vec::new(rt.alloc());
    rt.stdin().lock().read_to_end(&mut bytes)?;
    // With room from the start, what is shown asks for no memory.
    let mut shown = Vec::with_capacity(rt.alloc(), 65_536)?;
    let Some(has_begun) = play(&rt, rt.alloc(), name, &bytes, &mut shown) else {
        return Err(Error::from(ErrorKind::InvalidInput));
    };
    if !has_begun {
        let _again = play(&rt, rt.alloc(), name, &bytes, &mut shown);
    }
    rt.stdout().lock().write_all(&shown)
}
