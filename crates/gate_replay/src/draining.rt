ghost use Rattle.std.specs.Prelude.{◌≡◌, ◌≢◌, length, IfOk, IfErr, OnOk};
ghost use Rattle.gate_core.specs.Legal.{Run};
ghost use Rattle.gate_streams.specs.Sink.{SinkState};
ghost use Rattle.gate_replay.specs.inner.Playing.{solo_view, IsUnderWay, Takes, DrainsFrom, StopsPreparing, StopsTaking, StopsDraining};

use crate::player::{Player, Stopped};
use crate::solo_queue::SoloQueue;
use gate_applier::{Applier, PrepareCause, PrepareFault, Ready};

// Makes room for a record, or stops.
fn prepare(applier: Applier) -> Result<Ready, Stopped>
    ensures ready { IfOk result (λ ready. ready ≡ record applier { room = ready.room }) }
    ensures stopped { IfErr result (StopsPreparing applier) }
    ensures room { OnOk result (length applier.records ≢ applier.limit) }
{
    match applier.prepare() {
        Ok(ready) => Ok(ready),
        Err(
            PrepareFault {
                cause: PrepareCause::LogFull,
                applier,
            },
        ) => Err(Stopped::Full(applier)),
        Err(
            PrepareFault {
                cause: PrepareCause::OutOfMemory,
                applier,
            },
        ) => Err(Stopped::OutOfMemory(applier)),
    }
}

impl<D: SoloQueue + Drop> Player<D>
where
    D::Ended: Drop,
{
    // Takes an item and records it. Without one there is nothing more to take. The queue is ended
    // where the log is full.
    fn take_one(self) -> Result<(Player<D>, bool), Stopped>
        requires { (run : Run) × D.after self.queue run }
        ensures taken { IfOk result (λ turn.
            Takes (solo_view D.after D.limits) self turn.0 turn.1) }
        ensures stopped { IfErr result (StopsTaking (solo_view D.after D.limits)
            (solo_view D.Ended.after D.Ended.limits) self) }
    {
        let ready = match prepare(self.applier) {
            Ok(ready) => ready,
            Err(stop) => {
                let _ended = self.queue.end();
                return Err(stop);
            }
        };
        let (queue, item) = self.queue.take();
        match item {
            Some(item) => {
                let (applier, _) = ready.apply(item, self.clock);
                let player = Player {
                    queue,
                    applier,
                    ..self
                };
                Ok((player, true))
            }
            None => {
                let applier = ready.give_back();
                let player = Player {
                    queue,
                    applier,
                    ..self
                };
                Ok((player, false))
            }
        }
    }

    // Records what is queued.
    pub(crate) fn drain(self) -> Result<Player<D>, Stopped>
        requires { (output : SinkState) × IsUnderWay (solo_view D.after D.limits) self output }
        ensures drained { IfOk result (DrainsFrom (solo_view D.after D.limits) self) }
        ensures stopped { IfErr result (StopsDraining (solo_view D.after D.limits)
            (solo_view D.Ended.after D.Ended.limits) self) }
    {
        let mut player = self;
        while (player.applier.records().len() as u64) < player.queued {
            match player.take_one() {
                Ok(turn) => {
                    if !turn.1 {
                        return Ok(turn.0);
                    }
                    player = turn.0;
                }
                Err(stop) => return Err(stop),
            }
        }
        Ok(player)
    }
}
