//! Commands, with the moment of their request.

ghost use Rattle.std.specs.Prelude.{◌≡◌, IfOk, map};
ghost use Rattle.operator_ports.specs.Commands.{entered_at};

use gate_grammar::Command;
use gate_model::{Body, Moment};
use std::alloc::{AllocError, Global};

/// Commands that are entered at this moment. The only error is out of memory.
pub fn entered_at(
    alloc: Global,
    entered: Moment,
    bodies: Vec<Body>,
) -> Result<Vec<Command>, AllocError>
    ensures { IfOk result (λ commands. commands.items ≡ map (entered_at entered) bodies.items) }
{
    let mut commands = Vec::with_capacity(alloc, bodies.len())?;
    let mut left = bodies;
    left.reverse();
    while let Some(body) = left.pop() {
        commands.push(Command { entered, body })?;
    }
    Ok(commands)
}
