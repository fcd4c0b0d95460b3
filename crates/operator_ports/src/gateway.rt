//! A gateway that is asked, and what was done there.

ghost use Rattle.std.specs.Prelude.{◌≡◌, ◌∷◌, ◌++◌, [], Err, MatchResult};
ghost use Rattle.gate_grammar.specs.Writability.{IsWritable};
ghost use Rattle.operator_lines.specs.declared.sending.SendFault.TheVariants.{Unwritable};
ghost use Rattle.operator_ports.specs.declared.next.Next.TheVariants.{Page};
ghost use Rattle.operator_ports.specs.Steps.{IsSent, Read, Sent};

use crate::next::Next;
use gate_grammar::Command;
use operator_lines::{AskFault, Reply};
use page_fetching::FetchFault;
use std::alloc::{AllocError, Global};

/// A gateway that is asked.
pub trait Gateway {
    ghost use Rattle.std.specs.Prelude.{List};
    ghost use Rattle.operator_ports.specs.Steps.{Step};

    // What was done there so far, in order.
    ghost done: { Self → List Step };

    /// The text of its page.
    fn page(&mut self, alloc: Global) -> Result<Vec<u8>, FetchFault>
        ensures { MatchResult result
            (λ text. done self.new ≡ done self.old ++ Read (Page text) ∷ [])
            (λ _. done self.new ≡ done self.old) };

    /// Sends a command over a connection of its own, and reads its answer.
    fn send(&mut self, alloc: Global, command: &Command) -> Result<Reply, AskFault>
        ensures { IsSent command.now result (done self.old) (done self.new) };

    /// Its next page, after a pause. The time within which pages are read begins with the first of them
    /// after a command. The only error is out of memory.
    fn next(&mut self, alloc: Global) -> Result<Next, AllocError>
        ensures { MatchResult result
            (λ next. done self.new ≡ done self.old ++ Read next ∷ [])
            (λ _. done self.new ≡ done self.old) };
}
