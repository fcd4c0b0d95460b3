ghost use Rattle.std.specs.Prelude.{◌≡◌, ◌+◌, ◌<◌, ◌^◌, [], IfOk, IfErr, OnOk};
ghost use Rattle.gate_core.specs.Limits.{limits_of, default_quota};
ghost use Rattle.gate_core.specs.Legal.{Run};
ghost use Rattle.gate_streams.specs.Sink.{Writes};
ghost use Rattle.gate_pages.specs.StatusPage.{status_text_at};
ghost use Rattle.gate_replay.specs.declared.script.Step.TheVariants as step;
ghost use Rattle.gate_replay.specs.declared.setup.Setup.{Setup};
ghost use Rattle.gate_replay.specs.inner.Sessions.{queued_in, PrintsAnswer};
ghost use Rattle.gate_replay.specs.inner.Playing.{solo_view, IsNew, IsReady, IsEnded, IsWriteEnd, StopsBefore, PlaysFrom, StopsPlaying, PlaysAll, StopsAll};

use crate::fault::ReplayFault;
use crate::script::Step;
use crate::sessions::{only_answer, serve_line, serve_packet};
use crate::setup::Setup;
use crate::solo_queue::SoloQueue;
use gate_applier::{Applier, OpenCause, OpenFault};
use gate_faults::{RunFault, fault_of};
use gate_model::Moment;
use gate_pages::{Board, status_page};
use gate_reader::{Answer, Report, answer_line};
use gate_streams::Sink;
use std::alloc::{AllocError, Global};

/// A replay under way, over a queue that is this queue.
#[derive(Drop)]
pub(crate) struct Player<D> {
    pub(crate) queue: D,
    pub(crate) applier: Applier,
    pub(crate) clock: Moment,
    pub(crate) age: u32,
    /// How many items the clients were answered are queued.
    pub(crate) queued: u64,
}

/// Why a replay stopped before its last step, and whether its log is still to be printed.
#[derive(Drop)]
pub(crate) enum Stopped {
    /// An item finds the log full. The log is still to be printed.
    Full(Applier),
    /// Memory ran out for a step. The log is still to be printed.
    OutOfMemory(Applier),
    /// A write failed. Nothing more is written.
    Unwritten(ReplayFault),
}

// How many items are queued after an answer.
fn queued_after(queued: u64, answer: &Answer) -> u64
    requires { queued < 2 ^ 34 }
    ensures { result ≡ queued + queued_in answer.now }
{
    match answer {
        Answer::Queued(_) => queued + 1,
        _ => queued,
    }
}

// Writes all of a text.
fn print<W: Sink>(output: &mut W, text: &[u8]) -> Result<(), ReplayFault>
    ensures ok { OnOk result (Writes (W.state output.old) (W.state output.new) text.now) }
    ensures err { IfErr result (IsWriteEnd (W.state output.old) (W.state output.new)) }
{
    match output.put(text) {
        Ok(()) => Ok(()),
        Err(error) => Err(ReplayFault::Run(fault_of(&error, RunFault::WriteFault))),
    }
}

// A write failed. The applier that nothing uses any more is dropped here alone.
fn unwritten(_applier: Applier, fault: ReplayFault) -> Stopped
    ensures { result ≡ Stopped.Unwritten fault }
{
    Stopped::Unwritten(fault)
}

// The status page of an applier.
fn page_of(alloc: Global, applier: &Applier) -> Result<Vec<u8>, AllocError>
    ensures { let shown = applier.now in IfOk result (λ page.
        page.items ≡ status_text_at shown.table shown.opening shown.records shown.moment) }
{
    let board = Board::of(alloc, applier)?;
    status_page(alloc, &board)
}

impl<D: SoloQueue + Drop> Player<D>
where
    D::Ended: Drop,
{
    /// The replay over this queue that begins with this setup.
    pub(crate) fn open(alloc: Global, queue: D, setup: Setup) -> Result<Player<D>, ReplayFault>
        requires begun { D.after queue [] }
        requires limits { D.limits queue ≡ limits_of 2 default_quota setup.capacity }
        ensures begun { IfOk result (IsNew (solo_view D.after D.limits) setup) }
        ensures err { IfErr result (λ fault. fault ≡ ReplayFault.Run RunFault.OutOfMemory) }
    {
        let Setup {
            table,
            moment,
            age,
            limit,
            capacity: _,
        } = setup;
        match Applier::open(alloc, table, moment, limit) {
            Ok(applier) => Ok(Player {
                queue,
                applier,
                clock: moment,
                age,
                queued: 0,
            }),
            Err(
                OpenFault {
                    cause: OpenCause::BadLimit,
                    table: _,
                },
            ) => unreachable!(),
            Err(
                OpenFault {
                    cause: OpenCause::OutOfMemory,
                    table: _,
                },
            ) => Err(ReplayFault::Run(RunFault::OutOfMemory)),
        }
    }

    /// Ends the queue, and leaves the applier.
    pub(crate) fn end(self) -> Applier
        requires { (run : Run) × D.after self.queue run }
        ensures applier { result ≡ self.applier }
        ensures ended { IsEnded (solo_view D.after D.limits)
            (solo_view D.Ended.after D.Ended.limits) self.queue }
    {
        let _ended = self.queue.end();
        self.applier
    }

    // Prints the line of the session's one answer, and counts what it queued.
    fn answer<W: Sink>(self, report: &Report, output: &mut W) -> Result<Player<D>, Stopped>
        requires { self.queued < 2 ^ 34 }
        ensures answered { IfOk result (λ now.
            PrintsAnswer report.now self now (W.state output.old) (W.state output.new)) }
        ensures stopped { IfErr result (
            StopsBefore self.applier (W.state output.old) (W.state output.new)) }
    {
        let Some(answer) = only_answer(report) else {
            return Err(Stopped::OutOfMemory(self.applier));
        };
        let line = answer_line(answer);
        if let Err(fault) = print(output, line.as_str().as_bytes()) {
            return Err(unwritten(self.applier, fault));
        }
        let queued = queued_after(self.queued, answer);
        Ok(Player { queued, ..self })
    }

    // The status page, at the clock's moment or the applier's, whichever is later.
    fn page<W: Sink>(self, alloc: Global, output: &mut W) -> Result<Player<D>, Stopped>
        ensures played { IfOk result (λ now. PlaysFrom (solo_view D.after D.limits) self
            (W.state output.old) step.Page now (W.state output.new)) }
        ensures stopped { IfErr result (
            StopsBefore self.applier (W.state output.old) (W.state output.new)) }
    {
        let mut player = self;
        player.applier.advance(player.clock);
        let Ok(page) = page_of(alloc, &player.applier) else {
            return Err(Stopped::OutOfMemory(player.applier));
        };
        match print(output, &page) {
            Ok(()) => Ok(player),
            Err(fault) => Err(unwritten(player.applier, fault)),
        }
    }

    // Plays a step. What a session queued is recorded before the next step.
    fn step<W: Sink>(self, alloc: Global, step: &Step, output: &mut W) -> Result<Player<D>, Stopped>
        requires { IsReady (solo_view D.after D.limits) self (W.state output.old) }
        ensures played { IfOk result (λ now. PlaysFrom (solo_view D.after D.limits) self
            (W.state output.old) step.now now (W.state output.new)) }
        ensures stopped { IfErr result (StopsPlaying (solo_view D.after D.limits)
            (solo_view D.Ended.after D.Ended.limits) self (W.state output.old) step.now
            (W.state output.new)) }
    {
        match step {
            Step::Clock(moment) => Ok(Player {
                clock: *moment,
                ..self
            }),
            Step::Packet(sent) => {
                let (queue, report) = serve_packet(alloc, self.queue, sent, self.age, self.clock);
                let player = Player { queue, ..self };
                player.answer(&report, output)?.drain()
            }
            Step::Line(text) => match serve_line(alloc, self.queue, text, self.clock) {
                Ok((queue, report)) => {
                    let player = Player { queue, ..self };
                    player.answer(&report, output)?.drain()
                }
                Err(_) => Err(Stopped::OutOfMemory(self.applier)),
            },
            Step::Page => self.page(alloc, output),
        }
    }

    /// Plays the steps, printing the answers and the status pages. It stops at an item that finds
    /// the log full.
    pub(crate) fn play<W: Sink>(
        self,
        alloc: Global,
        steps: &[Step],
        output: &mut W,
    ) -> Result<Player<D>, Stopped>
        requires { (setup : Setup) × IsNew (solo_view D.after D.limits) setup self }
        ensures played { IfOk result (λ now. PlaysAll (solo_view D.after D.limits) self
            (W.state output.old) steps.now now (W.state output.new)) }
        ensures stopped { IfErr result (StopsAll (solo_view D.after D.limits)
            (solo_view D.Ended.after D.Ended.limits) self (W.state output.old) steps.now
            (W.state output.new)) }
    {
        let mut player = self;
        for step in steps {
            match player.step(alloc, step, output) {
                Ok(next) => player = next,
                Err(stop) => return Err(stop),
            }
        }
        Ok(player)
    }
}
