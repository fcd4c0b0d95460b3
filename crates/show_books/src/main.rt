//! Plays steps on the three books, one on each line of standard input, and prints each line with what
//! was answered. A line that begins with `#` is printed as it is.
#![tactic(auto)]

mod comments;
mod downtime;
mod objects;
mod playing;
mod printing;
mod steps;

use crate::playing::play_lines;
use std::io;
use std::io::{BufWriter, Write};

fn main(rt: HostRuntime) -> io::Result<()> {
    let text = io::read_to_string(rt.alloc(), rt.stdin().lock())?;
    let mut output = BufWriter::new(rt.alloc(), rt.stdout().lock())?;
    play_lines(rt.alloc(), &text, &mut output)?;
    output.flush()
}
