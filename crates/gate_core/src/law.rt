ghost use Rattle.std.specs.Prelude.{◌≡◌, ◌++◌, ◌∷◌, ℕ, length};
ghost use Rattle.gate_model.specs.declared.submission.Body.{Body};
ghost use Rattle.gate_core.specs.declared.event.Event.TheVariants.{Push};
ghost use Rattle.gate_core.specs.declared.event.Reply.TheVariants.{Queued};
ghost use Rattle.gate_core.specs.Limits.{Limits};
ghost use Rattle.gate_core.specs.Merge.{IsMerge};
ghost use Rattle.gate_core.specs.Legal.{Run, IsLegal, queued, taken};
ghost use Rattle.gate_core.specs.Law.{IsConserved, FollowsOpenLook, IsDrained};
ghost use Rattle.gate_core.specs.State.{WorldState, StandsAfter, taken_count};

/// What holds of every legal run, and so of every run that a World plays: nothing is lost, made or
/// put out of order, whatever the events are. Own rules.
pub fn conservation()
    // What was taken, followed by the queue, is a merge of what each client was answered is queued.
    ensures merge { (limits : Limits) (run : Run) → IsLegal limits run → IsConserved limits run }

    // A client whose push is queued had looked before every close, and did nothing else since.
    ensures looked { (limits : Limits) (later run : Run) (client number : ℕ) (body : Body) →
        IsLegal limits (later ++ (Push client body, Queued number) ∷ run) →
        FollowsOpenLook client run }

    // Once all clients were taken in and the queue was found empty, nothing is left to take.
    ensures drained { (limits : Limits) (run : Run) → IsLegal limits run →
        IsDrained limits.clients run →
        IsMerge limits.clients (λ client. queued client run) (taken run) }

    // As many items as a World shows as taken were taken in its run.
    ensures counted { (world : WorldState) (run : Run) → StandsAfter world run →
        taken_count world ≡ length (taken run) }
{}
