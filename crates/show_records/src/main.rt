//! Applies the commands on standard input, each at the time that it names, and prints the status page
//! before and after each of them and the log page at the end. The first lines are the objects, `HOST`
//! or `HOST;SERVICE`, up to an empty line. A call that finds no memory is named, and made once more.
#![tactic(auto)]

mod applying;
mod objects;
mod printing;

use crate::applying::apply_lines;
use crate::objects::open;
use crate::printing::show_log;
use std::alloc::Global;
use std::io;
use std::io::{Read, Write};

fn show_records(alloc: Global, bytes: &[u8], shown: &mut Vec<u8>) -> io::Result<()> {
    let (applier, commands) = open(alloc, bytes, shown)?;
    let applier = apply_lines(alloc, applier, commands, shown);
    show_log(alloc, &applier, shown);
    Ok(())
}

fn main(rt: HostRuntime) -> io::Result<()> {
    let mut bytes = Vec::new(rt.alloc());
    rt.stdin().lock().read_to_end(&mut bytes)?;
    // With room from the start, what is shown asks for no memory.
    let mut shown = Vec::with_capacity(rt.alloc(), 1_048_576)?;
    show_records(rt.alloc(), &bytes, &mut shown)?;
    rt.stdout().lock().write_all(&shown)
}
