//! Reads the lines on standard input as command lines, and prints for each the canonical line of its
//! command, or why it is none. Where that line isn't read again as the same command, it says so.
#![tactic(auto)]

ghost use Rattle.gate_grammar.specs.Writability.{IsWritable};

use gate_grammar::{Command, read_line, write_line};
use std::alloc::Global;
use std::io;
use std::io::{BufRead, BufReader, BufWriter, Write};

// Names a line that isn't read again as a command of the same line.
fn show_if_other(alloc: Global, line: &[u8], output: &mut impl Write) -> io::Result<()> {
    match read_line(alloc, line) {
        Ok(again) => {
            let written = write_line(alloc, &again);
            drop(again);
            match written {
                Ok(written) if written.as_slice() == line => Ok(()),
                Ok(_) => output.write_all(b"read again: another command\n"),
                Err(_) => output.write_all(b"read again: OutOfMemory\n"),
            }
        }
        Err(fault) => writeln!(output, "read again: {fault:?}"),
    }
}

fn show_command(alloc: Global, command: &Command, output: &mut impl Write) -> io::Result<()>
    requires { IsWritable command.now }
{
    match write_line(alloc, command) {
        Ok(line) => {
            output.write_all(&line)?;
            output.write_all(b"\n")?;
            show_if_other(alloc, &line, output)
        }
        Err(_) => output.write_all(b"write_line: OutOfMemory\n"),
    }
}

fn show_line(alloc: Global, line: &[u8], output: &mut impl Write) -> io::Result<()> {
    match read_line(alloc, line) {
        Ok(command) => {
            let shown = show_command(alloc, &command, output);
            drop(command);
            shown
        }
        Err(fault) => writeln!(output, "{fault:?}"),
    }
}

fn show_lines(alloc: Global, input: &mut impl BufRead, output: &mut impl Write) -> io::Result<()> {
    let mut line = Vec::with_capacity(alloc, 16_384)?;
    for _ in 0..u64::MAX {
        line.clear();
        if input.read_until(b'\n', &mut line)? == 0 {
            break;
        }
        if line.last() == Some(&b'\n') {
            line.truncate(line.len() - 1);
        }
        show_line(alloc, &line, output)?;
    }
    Ok(())
}

fn main(rt: HostRuntime) -> io::Result<()> {
    let mut input = BufReader::new(rt.alloc(), rt.stdin().lock())?;
    let mut output = BufWriter::new(rt.alloc(), rt.stdout().lock())?;
    show_lines(rt.alloc(), &mut input, &mut output)?;
    output.flush()
}
