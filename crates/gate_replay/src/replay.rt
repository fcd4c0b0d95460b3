ghost use Rattle.std.specs.Prelude.{◌≡◌, ◌≤◌, [], length, IfOk, IfErr, OnOk};
ghost use Rattle.gate_model.specs.Meaning.{outcomes_of};
ghost use Rattle.gate_core.specs.Limits.{limits_of, default_quota, IsOpenFault};
ghost use Rattle.gate_core.specs.Legal.{IsLegal};
ghost use Rattle.gate_replay.specs.Allowed.{IsAllowed};
ghost use Rattle.gate_lines.specs.LogPage.{log_text};
ghost use Rattle.gate_streams.specs.Sink.{Delivers};
ghost use Rattle.gate_streams.specs.Fault.{fault_in};
ghost use Rattle.gate_replay.specs.Replay.{IsWholeInput, EndsWith, IsReplayRun};
ghost use Rattle.gate_replay.specs.inner.Playing.{solo_view, IsShown, IsWriteEnd, EndsPlaying, IsInputFault};

use crate::fault::ReplayFault;
use crate::player::{Player, Stopped};
use crate::script::{Script, read_script};
use crate::setup::Setup;
use crate::solo_gate::SoloGate;
use crate::solo_queue::SoloQueue;
use gate_applier::Applier;
use gate_core::{LocalClient, OpenFault, World};
use gate_faults::{RunFault, fault_of};
use gate_model::DOCUMENT_BYTES;
use gate_printing::{Progress, print_log};
use gate_queue::open;
use gate_streams::{Sink, end_with};
use std::alloc::Global;
use std::io::Read;
use std::sync::Wait;

fn read_input<I: Read>(alloc: Global, input: &mut I) -> Result<Vec<u8>, ReplayFault>
    ensures whole { IfOk result (λ text. IsWholeInput (I.remaining input.old) text.items) }
    ensures short { IfOk result (λ text. length text.items ≤ 1048576) }
    ensures err { IfErr result (IsInputFault (I.remaining input.old)) }
{
    let mut text = Vec::new(alloc);
    let mut input = input.take(DOCUMENT_BYTES as u64 + 1);
    match input.read_to_end(&mut text) {
        Ok(_) => {}
        Err(error) => return Err(ReplayFault::Run(fault_of(&error, RunFault::ReadFault))),
    }
    if text.len() > DOCUMENT_BYTES {
        return Err(ReplayFault::TooLong);
    }
    Ok(text)
}

// Prints the log page, and flushes. Nobody watches its progress.
fn print_page<W: Sink>(applier: &Applier, output: &mut W) -> Result<(), ReplayFault>
    ensures ok { OnOk result (Delivers (W.state output.old) (W.state output.new) (log_text
        applier.now.records (outcomes_of applier.now.table applier.now.records))) }
    ensures err { IfErr result (IsWriteEnd (W.state output.old) (W.state output.new)) }
{
    let progress = Progress::new();
    match print_log(output, applier.records(), applier.outcomes(), &progress) {
        Ok(()) => Ok(()),
        Err(error) => Err(ReplayFault::Run(fault_of(&error, RunFault::WriteFault))),
    }
}

// The fault after which the log was printed, unless printing it failed.
fn fault_after(printed: Result<(), ReplayFault>, fault: ReplayFault) -> Result<(), ReplayFault>
    ensures ok { OnOk printed (result ≡ Err fault) }
    ensures err { IfErr printed (λ other. result ≡ Err other) }
{
    printed?;
    Err(fault)
}

// Plays a script over a queue at which nothing happened yet, and prints the log of what was applied,
// unless a write failed.
fn play_over<D: SoloQueue + Drop, W: Sink>(
    alloc: Global,
    queue: D,
    script: Script,
    output: &mut W,
) -> Result<(), ReplayFault>
where
    D::Ended: Drop,
    requires begun { D.after queue [] }
    requires limits { D.limits queue ≡ limits_of 2 default_quota script.setup.capacity }
    ensures { EndsPlaying (IsShown (solo_view D.Ended.after D.Ended.limits))
        (IsShown (solo_view D.after D.limits)) script
        (W.state output.old) (W.state output.new) (fault_in result) }
{
    let Script { setup, steps } = script;
    let Ok(player) = Player::open(alloc, queue, setup) else {
        return Err(ReplayFault::Run(RunFault::OutOfMemory));
    };
    match player.play(alloc, &steps, output) {
        Ok(player) => {
            let applier = player.end();
            print_page(&applier, output)
        }
        Err(Stopped::Full(applier)) => {
            let printed = print_page(&applier, output);
            fault_after(printed, ReplayFault::Run(RunFault::LogFull))
        }
        Err(Stopped::OutOfMemory(applier)) => {
            let printed = print_page(&applier, output);
            fault_after(printed, ReplayFault::Run(RunFault::OutOfMemory))
        }
        Err(Stopped::Unwritten(fault)) => Err(fault),
    }
}

// Why a queue of two clients can't be opened for a script, whose capacity is in its range.
fn unopened(fault: OpenFault, setup: &Setup) -> ReplayFault
    requires { IsOpenFault fault 2 default_quota setup.now.capacity }
    ensures { result ≡ ReplayFault.Run RunFault.OutOfMemory }
{
    let _capacity = setup.capacity;
    match fault {
        OpenFault::BadCount => unreachable!(),
        OpenFault::BadCapacity => unreachable!(),
        OpenFault::BadQuota => unreachable!(),
        OpenFault::OutOfMemory => ReplayFault::Run(RunFault::OutOfMemory),
    }
}

// Plays a script over a World, and prints the log.
fn play_over_world<W: Sink>(
    alloc: Global,
    script: Script,
    output: &mut W,
) -> Result<(), ReplayFault>
    ensures { EndsPlaying IsLegal IsLegal script (W.state output.old) (W.state output.new)
        (fault_in result) }
{
    let world = match World::open(alloc, 2, script.setup.capacity as usize) {
        Ok(world) => world,
        Err(fault) => return Err(unopened(fault, &script.setup)),
    };
    let queue = LocalClient::new(world, 1).ok().unwrap();
    play_over(alloc, queue, script, output)
}

// Plays a script over a gate, and prints the log.
fn play_over_gate<R: Wait, W: Sink>(
    rt: &R,
    alloc: Global,
    script: Script,
    output: &mut W,
) -> Result<(), ReplayFault>
    ensures { EndsPlaying IsAllowed IsAllowed script (W.state output.old) (W.state output.new)
        (fault_in result) }
{
    let opened = match open(alloc, 2, script.setup.capacity as usize) {
        Ok(opened) => opened,
        Err(fault) => return Err(unopened(fault, &script.setup)),
    };
    let (gate, taker, closer, mut clients) = opened;
    let two = clients.pop().unwrap();
    let one = clients.pop().unwrap();
    let queue = SoloGate::new(rt, alloc, &gate, taker, closer, one, two);
    play_over(alloc, queue, script, output)
}

/// Reads a script, checks it whole and plays it over a gate of two clients: it prints an answer for
/// each packet and each line that arrives, the status page where it is asked for, and in the end the
/// log page, also where the log was full with an item left. Both clients have ended by then.
///
/// The queue's answers keep the rules that a gate keeps whatever other threads do. Those leave open
/// whether there is room for an item, whether somebody else has closed, and whether a take finds
/// the items that wait. What is recorded of a client begins what was queued for it. All else that
/// is printed follows from the script and these answers.
///
/// TooLong and Line are faults of the input, before anything is printed: it has more than 1,048,576
/// bytes, or a first faulty line. LogFull is an item that finds the log full. ReadFault is a failed
/// call of `input` and WriteFault one of `output`, unless its error is out of memory. After a failed
/// call of `output` no other is made. OutOfMemory may come instead of any other answer, but never of
/// the log page, which takes no memory: nothing was printed, or a call of `output` failed, or what the
/// first steps print was delivered and the log page after it, and no item found the log full. Own rules.
pub fn replay_script<R: Wait, I: Read, W: Sink>(
    rt: &R,
    alloc: Global,
    input: &mut I,
    output: &mut W,
) -> Result<(), ReplayFault>
    ensures { EndsWith IsAllowed (I.remaining input.old) (W.state output.old) (W.state output.new)
        (fault_in result) }
{
    let text = read_input(alloc, input)?;
    let script = read_script(alloc, &text)?;
    play_over_gate(rt, alloc, script, output)
}

/// Does what `replay_script` does, over a World in place of a gate. Its answers are those of the
/// machine of all interleavings, so the script alone decides what is printed.
pub fn replay_over_world<I: Read, W: Sink>(
    alloc: Global,
    input: &mut I,
    output: &mut W,
) -> Result<(), ReplayFault>
    ensures { EndsWith IsLegal (I.remaining input.old) (W.state output.old) (W.state output.new)
        (fault_in result) }
{
    let text = read_input(alloc, input)?;
    let script = read_script(alloc, &text)?;
    play_over_world(alloc, script, output)
}

/// Replays a script over a gate, reports what stops it in one line on `errors`, and returns the
/// exit status.
///
/// The status is 0 where all of the script was replayed and delivered; 2 where the input is no
/// script, and then nothing was printed; 3 where the log is full with an item left, memory ran out,
/// or input or output failed. That a line can't be written to `errors` changes nothing. Own rules.
pub fn run_replay<R: Wait, I: Read, W: Sink, E: Sink>(
    rt: &R,
    alloc: Global,
    input: &mut I,
    output: &mut W,
    errors: &mut E,
) -> u8
    ensures { IsReplayRun IsAllowed (I.remaining input.old) (W.state output.old)
        (W.state output.new) (E.state errors.old) (E.state errors.new) result }
{
    let fault = replay_script(rt, alloc, input, output).err();
    end_with(&fault, errors)
}
