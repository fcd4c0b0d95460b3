//! Prints a line for each packet of a stream on standard input, `timestamp;code;host;service;output`,
//! or why the block is not read as a packet at the moment 1000. Each word is a size: for each the
//! stream is cut anew, in pieces of so many bytes, and what is not as in the first pieces is printed.
#![tactic(auto)]

use gate_model::Moment;
use gate_packet::{Block, Cutter, decode_block};
use std::alloc::Global;
use std::fmt::Write as _;
use std::io::{BufWriter, Error, ErrorKind, Read, Write};
use std::rt::Env;
use std::{env, fmt, io};

const NOW: Moment = Moment(1000);

// In seconds.
const GREATEST_AGE: u32 = 30;

// How many bytes a piece has, unless the words say so.
const PIECE_SIZE: usize = 4096;

// A text of a packet, with an escape for each byte that is not printable ASCII, and for a backslash.
#[derive(Drop)]
struct Escaped<'a>(&'a [u8]);

impl fmt::Display for Escaped<'_> {
    fn fmt<W: fmt::Write>(&self, f: &mut fmt::Formatter<W>) -> fmt::Result {
        for byte in self.0 {
            match *byte {
                b'\\' => f.write_str("\\x5c")?,
                b' '..=b'~' => f.write_char(char::from(*byte))?,
                other => write!(f, "\\x{other:02x}")?,
            }
        }
        Ok(())
    }
}

fn show_packet(alloc: Global, block: &Block, output: &mut impl Write) -> io::Result<()> {
    match decode_block(alloc, block, NOW, GREATEST_AGE) {
        Ok(packet) => writeln!(
            output,
            "{};{};{};{};{}",
            packet.timestamp().0,
            packet.code(),
            Escaped(packet.host().bytes()),
            Escaped(packet.service().bytes()),
            Escaped(packet.output().bytes())
        ),
        Err(fault) => writeln!(output, "{fault}"),
    }
}

// Shows the packets of which all bytes have been fed.
fn show_whole(alloc: Global, cutter: &mut Cutter, output: &mut impl Write) -> io::Result<()> {
    while let Some(block) = cutter.next_packet() {
        show_packet(alloc, &block, output)?;
    }
    Ok(())
}

fn show_packets(
    alloc: Global,
    stream: &[u8],
    piece_size: usize,
    output: &mut impl Write,
) -> io::Result<()> {
    let mut cutter = Cutter::new(alloc);
    for piece in stream.chunks(piece_size.max(1)) {
        if cutter.feed(piece).is_err() {
            writeln!(output, "out of memory")?;
            cutter.feed(piece)?;
        }
        show_whole(alloc, &mut cutter, output)?;
    }
    if cutter.rest() > 0 {
        writeln!(output, "{} bytes left over", cutter.rest())?;
    }
    Ok(())
}

// Shows the packets once for each size of pieces: all of the first, and of each other one whether they
// are the same.
fn show_by_sizes(
    alloc: Global,
    stream: &[u8],
    sizes: &[usize],
    output: &mut impl Write,
) -> io::Result<()> {
    let Some((first, others)) = sizes.split_first() else {
        return show_packets(alloc, stream, PIECE_SIZE, output);
    };
    let mut shown = Vec::new(alloc);
    show_packets(alloc, stream, *first, &mut shown)?;
    output.write_all(&shown)?;
    for size in others {
        let mut again = Vec::new(alloc);
        show_packets(alloc, stream, *size, &mut again)?;
        if again.as_slice() == shown.as_slice() {
            writeln!(output, "the same in pieces of {size}")?;
        } else {
            writeln!(output, "otherwise in pieces of {size}:")?;
            output.write_all(&again)?;
        }
    }
    Ok(())
}

fn sizes_in_words(rt: &(impl Env + AllocGlobal)) -> io::Result<Vec<usize>> {
    let mut words = env::args(rt)?;
    let _name = words.next();
    let mut sizes = Vec::new(rt.alloc());
    for word in words {
        match word.parse::<usize>() {
            Ok(size) if size > 0 => sizes.push(size)?,
            _ => return Err(Error::from(ErrorKind::InvalidInput)),
        }
    }
    Ok(sizes)
}

fn main(rt: HostRuntime) -> io::Result<()> {
    let sizes = sizes_in_words(&rt)?;
    let mut stream = Vec::new(rt.alloc());
    rt.stdin().lock().read_to_end(&mut stream)?;
    let mut output = BufWriter::new(rt.alloc(), rt.stdout().lock())?;
    show_by_sizes(rt.alloc(), &stream, &sizes, &mut output)?;
    output.flush()
}
