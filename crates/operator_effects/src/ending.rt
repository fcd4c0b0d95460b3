//! How a command ended, and the exit status.

ghost use Rattle.std.specs.Prelude.{◌≡◌};
ghost use Rattle.operator_effects.specs.Endings.{closing, ending_of, fault_status, queued, status_of};

use gate_model::{Act, Body, Deed, Outcome};
use operator_lines::{AskFault, Reply, SendFault};
use page_changes::Effect;

/// How a command ended.
#[derive(Clone, Copy)]
pub enum Ending {
    /// A page shows its effect.
    Shown(Effect),
    /// It was queued as the operator's item of this number, from 1, and no page shows what it does.
    Unseen(u64),
    /// It was queued, and no page showed its effect in time.
    NotShown,
    /// Nothing was sent: by its page the gateway would refuse the command.
    Refused(Outcome),
    /// It was not queued: the gateway's answer is another.
    NotQueued(Reply),
    /// There is no answer.
    NoAnswer(AskFault),
}

fn queued(act: &Act<'_>, number: u64, seen: Option<Effect>) -> Ending
    ensures { result ≡ queued act.now number seen }
{
    match seen {
        Some(effect) => Ending::Shown(effect),
        None => match act {
            Act::On {
                deed: Deed::Passive { .. },
                ..
            } => Ending::Unseen(number),
            _ => Ending::NotShown,
        },
    }
}

fn closing(act: &Act<'_>, seen: Option<Effect>) -> Ending
    ensures { result ≡ closing act.now seen }
{
    match act {
        Act::Shutdown => match seen {
            Some(effect) => Ending::Shown(effect),
            None => Ending::NotShown,
        },
        _ => Ending::NotQueued(Reply::Closing),
    }
}

/// How a command ended that was answered so, where a page showed this effect of it afterwards, or
/// none did. Own rule.
pub fn ending_of(body: &Body, reply: Reply, seen: Option<Effect>) -> Ending
    ensures { result ≡ ending_of body.now reply seen }
{
    match reply {
        Reply::Queued(number) => queued(&body.act(), number, seen),
        Reply::Closing => closing(&body.act(), seen),
        Reply::Full | Reply::Spent | Reply::Bad(_) => Ending::NotQueued(reply),
    }
}

fn fault_status(fault: AskFault) -> u8
    ensures { result ≡ fault_status fault }
{
    match fault {
        AskFault::Unsent(SendFault::Unwritable) => 2,
        AskFault::Unsent(SendFault::OutOfMemory)
        | AskFault::WriteFault
        | AskFault::ReadFault
        | AskFault::Ended
        | AskFault::TooLong
        | AskFault::NoAnswer => 3,
    }
}

impl Ending {
    /// The exit status: 0 where the command is done and shown, as far as a page shows it, 1 where
    /// it was refused or not shown, 2 where no line can hold it, and 3 where there is no answer.
    /// Own rule.
    pub fn status(self) -> u8
        ensures { result ≡ status_of self }
    {
        match self {
            Ending::Shown(_) | Ending::Unseen(_) => 0,
            Ending::NotShown | Ending::Refused(_) | Ending::NotQueued(_) => 1,
            Ending::NoAnswer(fault) => fault_status(fault),
        }
    }
}
