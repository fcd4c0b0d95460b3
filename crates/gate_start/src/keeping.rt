ghost use Rattle.std.specs.Prelude.{◌≡◌, ◌++◌, [], codes, IfErr, IfOk, OnOk};
ghost use Rattle.std.specs.List.{flat_map};
ghost use Rattle.std.specs.Fmt.{decimal};
ghost use Rattle.gate_reader.specs.Report.{fault_text};
ghost use Rattle.gate_start.specs.Kept.{packet_fault_text, line_front, line_rest, kept_line, fault_line, IsRead, IsKeptReported, IsTextTaken, IsTaken};

use crate::fault::ServeFault;
use gate_faults::RunFault;
use gate_grammar::LineFault;
use gate_kept::{Kept, KeptFault, read_kept};
use gate_model::push_number;
use gate_packet::PacketFault;
use gate_reader::{Answer, answer_line};
use gate_streams::{Sink, put_last};
use std::alloc::{AllocError, Global};
use std::fs;
use std::fs::Files;
use std::io::{ErrorKind, Read};

// The greatest text that is taken, in bytes: a log of 1,000,000 records leaves some 100 bytes for each,
// and 16,384 objects leave as many packets.
const GREATEST: usize = 256 << 20;

// ---- the lines that name faults

fn packet_fault_text(fault: PacketFault) -> &'static [u8]
    ensures { result.now ≡ packet_fault_text fault }
{
    match fault {
        PacketFault::BadVersion => b"BadVersion",
        PacketFault::BadCheckWord => b"BadCheckWord",
        PacketFault::Stale => b"Stale",
        PacketFault::EmptyHost => b"EmptyHost",
        PacketFault::OutOfMemory => b"OutOfMemory",
    }
}

fn push_numbered(out: &mut Vec<u8>, part: &[u8], number: u64) -> Result<(), AllocError>
    ensures { OnOk result (out.new.items ≡ out.old.items ++ (part.now ++ decimal number)) }
{
    out.extend_from_slice(part)?;
    push_number(out, number)?;
    Ok(())
}

fn push_front(out: &mut Vec<u8>, part: &[u8], number: u64) -> Result<(), AllocError>
    ensures { OnOk result (out.new.items ≡ out.old.items ++ line_front part.now number) }
{
    out.extend_from_slice(b"nscagate: kept: ")?;
    push_numbered(out, part, number)?;
    Ok(())
}

fn push_rest(out: &mut Vec<u8>, cause: &[u8]) -> Result<(), AllocError>
    ensures { OnOk result (out.new.items ≡ out.old.items ++ line_rest cause.now) }
{
    out.extend_from_slice(b": ")?;
    out.extend_from_slice(cause)?;
    out.extend_from_slice(b"\n")
}

// Appends the line of a fault of the packet or the line of this number.
fn push_line(out: &mut Vec<u8>, part: &[u8], number: u64, cause: &[u8]) -> Result<(), AllocError>
    ensures { OnOk result (out.new.items ≡ out.old.items ++ kept_line part.now number cause.now) }
{
    push_front(out, part, number)?;
    push_rest(out, cause)
}

// The same of a line's fault, in the words of an answer.
fn push_line_fault(out: &mut Vec<u8>, number: u64, fault: LineFault) -> Result<(), AllocError>
    ensures { OnOk result (out.new.items
        ≡ out.old.items ++ kept_line (codes "line ") number (fault_text fault)) }
{
    let answer = answer_line(&Answer::Bad(fault));
    let text = answer.as_str().as_bytes();
    let cause = text.strip_prefix(b"bad ").unwrap_or(text);
    let cause = cause.strip_suffix(b"\n").unwrap_or(cause);
    push_line(out, b"line ", number, cause)
}

fn push_fault(out: &mut Vec<u8>, fault: KeptFault) -> Result<(), AllocError>
    ensures { OnOk result (out.new.items ≡ out.old.items ++ fault_line fault) }
{
    match fault {
        KeptFault::Packet(number, fault) => {
            push_line(out, b"packet ", number, packet_fault_text(fault))
        }
        KeptFault::CutPacket(number) => push_line(out, b"packet ", number, b"it is cut"),
        KeptFault::Line(number, fault) => push_line_fault(out, number, fault),
        KeptFault::Shutdown(number) => push_line(out, b"line ", number, b"SHUTDOWN_PROGRAM"),
        KeptFault::CutLine(number) => push_line(out, b"line ", number, b"it is cut"),
    }
}

fn fault_lines(alloc: Global, faults: &[KeptFault]) -> Result<Vec<u8>, AllocError>
    ensures { IfOk result (λ lines. lines.items ≡ flat_map fault_line faults.now) }
{
    let mut lines = Vec::new(alloc);
    for fault in faults {
        push_fault(&mut lines, *fault)?;
    }
    Ok(lines)
}

// Reports lines, if there are any. That they can't be written changes nothing.
fn report<E: Sink>(errors: &mut E, lines: &[u8])
    ensures { IsKeptReported lines.now (E.state errors.old) (E.state errors.new) }
{
    if !lines.is_empty() {
        let _unwritten = put_last(errors, lines);
    }
}

// ---- the text

// Why the input isn't taken.
#[derive(Clone, Copy)]
enum Unread {
    TooLarge,
    Unreadable,
    OutOfMemory,
}

// Whether standard input is a regular file: from a terminal, a pipe or a device nothing is taken.
fn is_file<F: Files>(files: &F) -> bool {
    match fs::metadata(files, "/dev/stdin") {
        Ok(found) => found.is_file(),
        Err(_) => false,
    }
}

fn read_text<R: Read>(alloc: Global, input: &mut R) -> Result<Vec<u8>, Unread>
    ensures { IfOk result (λ text. IsRead (R.remaining input.old) text.items) }
{
    let mut text = Vec::new(alloc);
    let mut input = input.take(GREATEST as u64 + 1);
    match input.read_to_end(&mut text) {
        Ok(_) => {}
        Err(error) if error.kind() == ErrorKind::OutOfMemory => return Err(Unread::OutOfMemory),
        Err(_) => return Err(Unread::Unreadable),
    }
    if text.len() > GREATEST {
        return Err(Unread::TooLarge);
    }
    Ok(text)
}

// What is taken of a text; its faults are reported.
fn take_text<E: Sink>(alloc: Global, text: &[u8], errors: &mut E) -> Result<Kept, ServeFault>
    ensures taken { IfOk result (λ kept. IsTextTaken text.now (E.state errors.old)
        (E.state errors.new) kept.packets.items kept.lines.items) }
    ensures fault { IfErr result (λ fault. (fault ≡ ServeFault.Run RunFault.OutOfMemory)
        × (E.state errors.new ≡ E.state errors.old)) }
{
    let kept = read_kept(alloc, text)?;
    let lines = fault_lines(alloc, kept.faults.as_slice())?;
    report(errors, lines.as_slice());
    Ok(kept)
}

/// Takes what standard input holds, where that is a regular file: packets, and lines of other commands.
/// Each that isn't taken is named in a line on `errors`; so is a text of more than 256 MiB, or one that
/// can't be read, of which nothing is taken. The only fault is `OutOfMemory`. Own rule.
pub fn take_kept<F: Files, R: Read, E: Sink>(
    files: &F,
    alloc: Global,
    input: &mut R,
    errors: &mut E,
) -> Result<Kept, ServeFault>
    ensures taken { IfOk result (λ kept. IsTaken (R.remaining input.old) (E.state errors.old)
        (E.state errors.new) kept.packets.items kept.lines.items) }
    ensures fault { IfErr result (λ fault. (fault ≡ ServeFault.Run RunFault.OutOfMemory)
        × (E.state errors.new ≡ E.state errors.old)) }
{
    if !is_file(files) {
        return take_text(alloc, b"", errors);
    }
    match read_text(alloc, input) {
        Ok(text) => take_text(alloc, text.as_slice(), errors),
        Err(Unread::TooLarge) => Ok(take_none(alloc, b"nscagate: kept: TooLarge\n", errors)),
        Err(Unread::Unreadable) => Ok(take_none(alloc, b"nscagate: kept: unreadable\n", errors)),
        Err(Unread::OutOfMemory) => Err(ServeFault::Run(RunFault::OutOfMemory)),
    }
}

// Nothing is taken, and this line says why.
fn take_none<E: Sink>(alloc: Global, line: &[u8], errors: &mut E) -> Kept
    ensures packets { result.packets.items ≡ [] }
    ensures lines { result.lines.items ≡ [] }
    ensures reported { IsKeptReported line.now (E.state errors.old) (E.state errors.new) }
{
    report(errors, line);
    Kept {
        packets: Vec::new(alloc),
        lines: Vec::new(alloc),
        faults: Vec::new(alloc),
    }
}
