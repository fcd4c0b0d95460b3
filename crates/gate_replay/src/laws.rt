ghost use Rattle.std.specs.Prelude.{◌≡◌, ℕ, List, map};
ghost use Rattle.gate_model.specs.declared.record.Record.{Record};
ghost use mathlib.Core.List.{IsPrefix};
ghost use Rattle.gate_core.specs.Merge.{IsClient, of_client};
ghost use Rattle.gate_core.specs.Legal.{taken, queued, IsLegal};
ghost use Rattle.gate_replay.specs.Allowed.{IsAllowed};
ghost use Rattle.gate_replay.specs.declared.script.Step.{Step};
ghost use Rattle.gate_replay.specs.declared.setup.Setup.{Setup};
ghost use Rattle.gate_replay.specs.declared.script.Script.{Script};
ghost use Rattle.gate_replay.specs.ReplayState.{ReplayState, Heard, state_after, steps_of, IsWhole, IsPlayed};

/// States what follows from the meaning of a script, for all scripts; it does nothing.
pub fn replay_laws()
    // The records' items are those that were taken, whatever was answered.
    ensures items { (setup : Setup) (done : List (Step × Heard))
        → map (λ (one : Record). one.item) (state_after setup done).records
        ≡ taken (state_after setup done).run }
    // What was recorded of a client begins what was queued for it, in its order and with its bodies.
    ensures begun { (script : Script) (g : ReplayState) (client : ℕ)
        → IsPlayed IsAllowed script g → IsClient 2 client
        → IsPrefix (of_client client (map (λ (one : Record). one.item) g.records))
        (queued client g.run) }
    // Its steps and what the queue answered make one gateway, whatever the queue is.
    ensures function { (setup : Setup) (done other : List (Step × Heard))
        → steps_of done ≡ steps_of other → IsWhole setup done → IsWhole setup other
        → (state_after setup done).run ≡ (state_after setup other).run
        → state_after setup done ≡ state_after setup other }
    // Over a World a script leads to one gateway at most.
    ensures one { (script : Script) (one other : ReplayState)
        → IsPlayed IsLegal script one → IsPlayed IsLegal script other → one ≡ other }
    // A gate's answers may be those of a World.
    ensures allowed { (script : Script) (g : ReplayState)
        → IsPlayed IsLegal script g → IsPlayed IsAllowed script g }
{}
