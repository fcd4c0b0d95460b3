ghost use Rattle.std.specs.Prelude.{◌≡◌, ◌++◌, [], Err, IfOk, OnOk, map};
ghost use Rattle.std.specs.List.{AllByRecursion, flat_map};
ghost use Rattle.gate_grammar.specs.Canonical.{canonical_line};
ghost use Rattle.gate_grammar.specs.Spelling.{Spells};
ghost use Rattle.gate_grammar.specs.Writability.{IsWritable};
ghost use Rattle.gate_reader.specs.Lines.{CutsLines};
ghost use Rattle.operator_lines.specs.Sending.{sent, SpellsAlone};

use gate_grammar::{Command, round_trip, writable, write_line};
use std::alloc::{AllocError, Global};
use thiserror::Error;

/// Why nothing is sent.
#[derive(Clone, Copy, Debug, PartialEq, Error)]
pub enum SendFault {
    /// A command has no line: a text holds an LF, a NUL or, before the last, a semicolon, the last
    /// text ends in a blank, a name is empty, or the line has more than 8192 bytes.
    #[error("a command has no line")]
    Unwritable,
    /// Memory ran out.
    #[error("out of memory")]
    OutOfMemory,
}

impl From<AllocError> for SendFault {
    ghost use Rattle.operator_lines.specs.declared.sending.SendFault.TheVariants.{OutOfMemory};

    ghost from_gives = { λ _ fault. fault ≡ OutOfMemory };

    fn from(_: AllocError) -> SendFault {
        SendFault::OutOfMemory
    }
}

/// Appends a command's line and an LF.
pub(crate) fn push_line(
    alloc: Global,
    out: &mut Vec<u8>,
    command: &Command,
) -> Result<(), SendFault>
    ensures added { OnOk result (out.new.items ≡ out.old.items ++ sent command.now) }
    ensures spells { OnOk result (Spells (canonical_line command.now) command.now) }
    ensures refused { result ≡ Err SendFault.Unwritable → ¬ IsWritable command.now }
{
    if !writable(command) {
        return Err(SendFault::Unwritable);
    }
    let line = write_line(alloc, command)?;
    out.extend_from_slice(line.as_slice())?;
    out.extend_from_slice(b"\n")?;
    Ok(())
}

/// Writes what is sent for these commands: the canonical line of each with an LF after it, and
/// nothing else.
///
/// `Unwritable`: no line can hold one of the commands. `OutOfMemory` may be returned in place of any
/// other answer.
pub fn sent_lines(alloc: Global, commands: &[Command]) -> Result<Vec<u8>, SendFault>
    ensures sent { IfOk result (λ bytes. bytes.items ≡ flat_map sent commands.now) }

    // A gateway cuts the bytes into one line for each command, whatever bytes its texts have, and
    // reads each as that command and no other.
    ensures cut { IfOk result (λ bytes.
        CutsLines bytes.items (map canonical_line commands.now) []) }
    ensures read { IfOk result (λ _. AllByRecursion SpellsAlone commands.now) }

    ensures refused { result ≡ Err SendFault.Unwritable
        → ¬ AllByRecursion IsWritable commands.now }
{
    round_trip();
    let mut out = Vec::new(alloc);
    for command in commands {
        push_line(alloc, &mut out, command)?;
    }
    Ok(out)
}
