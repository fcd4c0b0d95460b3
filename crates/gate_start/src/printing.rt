ghost use Rattle.std.specs.Prelude.{◌≡◌, ◌++◌, IfOk, IfErr, IsOkAnd, OnOk};
ghost use Rattle.gate_streams.specs.Sink.{Delivers};
ghost use Rattle.gate_start.specs.BeforeServing.{address_line, address_lines, IsWriteEnd};

use crate::fault::ServeFault;
use gate_faults::RunFault;
use gate_streams::{Sink, put_last};
use std::alloc::{AllocError, Global};
use std::net::SocketAddr;

// Prints a text, if there was memory for it, and flushes. OutOfMemory: there was none, and nothing is
// printed. WriteFault: a call of the output failed, after which no other is made.
pub(crate) fn print<W: Sink>(
    output: &mut W,
    text: Result<Vec<u8>, AllocError>,
) -> Result<(), ServeFault>
    ensures ok { OnOk result (IsOkAnd text (λ made.
        Delivers (W.state output.old) (W.state output.new) made.items)) }
    ensures err { IfErr result (IsWriteEnd (W.state output.old) (W.state output.new)) }
{
    let text = text?;
    match put_last(output, &text) {
        Ok(()) => Ok(()),
        Err(_) => Err(ServeFault::Run(RunFault::WriteFault)),
    }
}

// Appends a line of a name and an address.
fn push_line(
    alloc: Global,
    out: &mut Vec<u8>,
    name: &[u8],
    address: SocketAddr,
) -> Result<(), AllocError>
    ensures { OnOk result (out.new.items ≡ out.old.items ++ address_line name.now address) }
{
    let shown = address.to_string(alloc)?;
    out.extend_from_slice(name)?;
    out.extend_from_slice(shown.as_bytes())?;
    out.extend_from_slice(b"\n")
}

/// The three addresses, each on a line.
pub(crate) fn address_lines(
    alloc: Global,
    agents: SocketAddr,
    operators: SocketAddr,
    pages: SocketAddr,
) -> Result<Vec<u8>, AllocError>
    ensures { IfOk result (λ text. text.items ≡ address_lines agents operators pages) }
{
    let mut text = Vec::new(alloc);
    push_line(alloc, &mut text, b"agents ", agents)?;
    push_line(alloc, &mut text, b"operators ", operators)?;
    push_line(alloc, &mut text, b"pages ", pages)?;
    Ok(text)
}
