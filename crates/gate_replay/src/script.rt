ghost use Rattle.std.specs.Prelude.{◌≡◌, [], Some, IfOk, IfErr};
ghost use Rattle.std.specs.Option.{option_copied};
ghost use Rattle.gate_table.specs.Faults.{IsFaultless};
ghost use Rattle.gate_packet.specs.Packet.{content, IsContent};
ghost use Rattle.gate_replay.specs.ScriptLine.{Object, parsed_script_line};
ghost use Rattle.gate_replay.specs.Script.{parsed_script_lines, object_of, step_of, IsStep, IsScript, IsFaultOf};
ghost use Rattle.gate_replay.specs.inner.Parsing.{parsed_from, IsOpenSoFar, IsLineFault};

use crate::lines::lines_of;
use crate::script_line::{ScriptLine, read_script_line};
use crate::sent_packet::SentPacket;
use crate::setup::Setup;
use gate_model::{Moment, ObjectLine, Text};
use gate_packet::Packet;
use gate_table::{BuildFault, ObjectTable, TableFault};
use std::alloc::{AllocError, AllocFailed, Global};
use thiserror::Error;

/// What a script does after it opened.
#[derive(Drop)]
pub enum Step {
    /// The clock is set.
    Clock(Moment),
    /// The packet arrives in its form.
    Packet(SentPacket),
    /// The operator's line with this text arrives.
    Line(Text),
    /// The status page is asked for.
    Page,
}

/// A script in which nothing is faulty.
#[derive(Drop)]
pub struct Script {
    pub setup: Setup,
    /// What it does after it opened, in order.
    pub steps: Vec<Step>,
}

/// Why a text is no script.
#[derive(Clone, Copy, Debug, Error)]
pub enum ScriptFault {
    /// The line of this number, from 1, is the first that is faulty. Where all lines are good and
    /// none opens, it is the one after the last.
    #[error("line {0} is the first faulty line")]
    Line(usize),
    /// Memory ran out.
    #[error("out of memory")]
    OutOfMemory,
}

impl From<AllocError> for ScriptFault {
    ghost use Rattle.gate_replay.specs.declared.script.ScriptFault.TheVariants.{OutOfMemory};

    ghost from_gives = { λ _ fault. fault ≡ OutOfMemory };

    fn from(_error: AllocError) -> ScriptFault {
        ScriptFault::OutOfMemory
    }
}

impl<T: Drop> From<AllocFailed<T>> for ScriptFault {
    ghost use Rattle.gate_replay.specs.declared.script.ScriptFault.TheVariants.{OutOfMemory};

    ghost from_gives = { λ _ fault. fault ≡ OutOfMemory };

    fn from(_error: AllocFailed<T>) -> ScriptFault {
        ScriptFault::OutOfMemory
    }
}

fn object_line(
    alloc: Global,
    threshold: u32,
    host: &[u8],
    service: Option<&[u8]>,
) -> Result<ObjectLine, AllocError>
    ensures { IfOk result (λ line.
        object_of (Some (Object threshold host.now (option_copied service.entry))) ≡ Some line) }
{
    let host = Text::copied(alloc, host)?;
    let service = match service {
        Some(service) => Some(Text::copied(alloc, service)?),
        None => None,
    };
    Ok(ObjectLine {
        host,
        service,
        threshold,
    })
}

// The table of the objects that stand before the line that opens, which has this number.
fn table(alloc: Global, objects: Vec<ObjectLine>, number: usize) -> Result<ObjectTable, ScriptFault>
    ensures table { IfOk result (λ table. table ≡ objects.items) }
    ensures faultless { IfOk result (λ table. IsFaultless table) }
    ensures faulty { IfErr result (IsLineFault number (¬ IsFaultless objects.items)) }
{
    match ObjectTable::build(alloc, objects) {
        Ok(table) => Ok(table),
        Err(
            BuildFault {
                cause: TableFault::OutOfMemory,
                lines: _,
            },
        ) => Err(ScriptFault::OutOfMemory),
        Err(_) => Err(ScriptFault::Line(number)),
    }
}

// What the script opens with, and how many lines there are up to the one that opens.
fn read_setup(alloc: Global, lines: &[&[u8]]) -> Result<(Setup, usize), ScriptFault>
    ensures setup { IfOk result (λ read. IsOpenSoFar (parsed_from lines.now) read.1 read.0 []) }
    ensures first_faulty { IfErr result (IsFaultOf (parsed_from lines.now)) }
{
    let mut objects = Vec::new(alloc);
    for (index, line) in lines.iter().enumerate() {
        match read_script_line(line) {
            Some(
                ScriptLine::Object {
                    threshold,
                    host,
                    service,
                },
            ) => objects.push(object_line(alloc, threshold, host, service)?)?,
            Some(
                ScriptLine::Open {
                    moment,
                    age,
                    capacity,
                    limit,
                },
            ) => {
                let table = table(alloc, objects, index + 1)?;
                let setup = Setup {
                    table,
                    moment,
                    age,
                    capacity,
                    limit,
                };
                return Ok((setup, index + 1));
            }
            Some(ScriptLine::Clock { .. }) => return Err(ScriptFault::Line(index + 1)),
            Some(ScriptLine::Packet { .. }) => return Err(ScriptFault::Line(index + 1)),
            Some(ScriptLine::Line { .. }) => return Err(ScriptFault::Line(index + 1)),
            Some(ScriptLine::Page) => return Err(ScriptFault::Line(index + 1)),
            None => return Err(ScriptFault::Line(index + 1)),
        }
    }
    Err(ScriptFault::Line(lines.len() + 1))
}

// The packet of the line of this number.
fn packet(
    alloc: Global,
    number: usize,
    timestamp: Moment,
    code: i16,
    host: &[u8],
    service: &[u8],
    output: &[u8],
) -> Result<Packet, ScriptFault>
    ensures packet { IfOk result (λ packet.
        packet ≡ content timestamp.0 code host.now service.now output.now) }
    ensures good { IfOk result IsContent }
    ensures faulty { IfErr result (IsLineFault number
        (¬ IsContent (content timestamp.0 code host.now service.now output.now))) }
{
    let host = Vec::from_slice(alloc, host)?;
    let service = Vec::from_slice(alloc, service)?;
    let output = Vec::from_slice(alloc, output)?;
    match Packet::new(timestamp, code, host, service, output) {
        Ok(packet) => Ok(packet),
        Err(_) => Err(ScriptFault::Line(number)),
    }
}

// The step of the line of this number, which stands after the line that opens.
fn read_step(alloc: Global, number: usize, line: &[u8]) -> Result<Step, ScriptFault>
    ensures step { IfOk result (λ step. step_of (parsed_script_line line.now) ≡ Some step) }
    ensures good { IfOk result (λ _. IsStep (parsed_script_line line.now)) }
    ensures faulty { IfErr result (IsLineFault number (¬ IsStep (parsed_script_line line.now))) }
{
    match read_script_line(line) {
        Some(ScriptLine::Clock { moment }) => Ok(Step::Clock(moment)),
        Some(
            ScriptLine::Packet {
                form,
                timestamp,
                code,
                host,
                service,
                output,
            },
        ) => {
            let packet = packet(alloc, number, timestamp, code, host, service, output)?;
            match SentPacket::new(form, packet) {
                Some(sent) => Ok(Step::Packet(sent)),
                None => Err(ScriptFault::Line(number)),
            }
        }
        Some(ScriptLine::Line { text }) => Ok(Step::Line(Text::copied(alloc, text)?)),
        Some(ScriptLine::Page) => Ok(Step::Page),
        _ => Err(ScriptFault::Line(number)),
    }
}

// The script that opens so, with the steps of the lines after the first, of which so many are read.
fn read_steps(
    alloc: Global,
    lines: &[&[u8]],
    setup: Setup,
    opened: usize,
) -> Result<Script, ScriptFault>
    requires { IsOpenSoFar (parsed_from lines.now) opened setup [] }
    ensures script { IfOk result (IsScript (parsed_from lines.now)) }
    ensures first_faulty { IfErr result (IsFaultOf (parsed_from lines.now)) }
{
    let mut steps = Vec::new(alloc);
    for index in opened..lines.len() {
        let step = read_step(alloc, index + 1, lines[index])?;
        steps.push(step)?;
    }
    Ok(Script { setup, steps })
}

/// Parses a text as a script, and checks it whole.
///
/// Line is the first faulty line: its form or a number in it is faulty, it stands on the wrong side
/// of the line that opens, its packet can't be sent in its form, or it opens with a faulty table. OutOfMemory
/// may come instead of any other answer. Own rules.
pub fn read_script(alloc: Global, text: &[u8]) -> Result<Script, ScriptFault>
    ensures script { IfOk result (IsScript (parsed_script_lines text.now)) }
    ensures first_faulty { IfErr result (IsFaultOf (parsed_script_lines text.now)) }
{
    let lines = lines_of(alloc, text)?;
    let (setup, opened) = read_setup(alloc, &lines)?;
    read_steps(alloc, &lines, setup, opened)
}
