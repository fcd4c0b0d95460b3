ghost use Rattle.std.specs.Prelude.{◌≡◌, ◌≤◌, ◌++◌, ◌∷◌, ℕ, length};
ghost use Rattle.gate_model.specs.declared.submission.Body.{Body};
ghost use Rattle.gate_core.specs.declared.event.Event.TheVariants.{Push};
ghost use Rattle.gate_core.specs.declared.event.Reply.TheVariants.{Queued};
ghost use Rattle.gate_core.specs.Limits.{Limits};
ghost use Rattle.gate_core.specs.Merge.{IsNumbered, IsMerge};
ghost use Rattle.gate_core.specs.Legal.{Run, IsLegal, queued, taken, first_close};
ghost use Rattle.gate_core.specs.Law.{FollowsOpenLook, IsDrained};
ghost use Rattle.gate_replay.specs.Allowed.{IsAllowed, shown_close};

/// What holds of the runs that a queue shows. Own rules.
pub fn allowed_runs()
    // Each run that a World plays is allowed, and the close that it shows is the first.
    ensures legal { (limits : Limits) (run : Run) → IsLegal limits run → IsAllowed limits run }
    ensures closed { (limits : Limits) (run : Run) → IsLegal limits run →
        shown_close run ≡ first_close run }

    // What a client was answered is queued is well numbered, and within the quota.
    ensures numbers { (limits : Limits) (run : Run) (client : ℕ) → IsAllowed limits run →
        IsNumbered client (queued client run) × (length (queued client run) ≤ limits.quota) }

    // A client whose push is queued had looked before every close, and did nothing else since.
    ensures looked { (limits : Limits) (later run : Run) (client number : ℕ) (body : Body) →
        IsAllowed limits (later ++ (Push client body, Queued number) ∷ run) →
        FollowsOpenLook client run }

    // Once all clients were taken in and the queue was found empty, nothing is left to take.
    ensures drained { (limits : Limits) (run : Run) → IsAllowed limits run →
        IsDrained limits.clients run →
        IsMerge limits.clients (λ client. queued client run) (taken run) }
{}
