//! What was done at a gateway, in order.

ghost use Rattle.std.specs.Prelude.{◌≡◌, ◌∷◌, ◌++◌, [], Err, IfErr, IfOk, OnErr, OnOk};
ghost use Rattle.gate_grammar.specs.Writability.{IsWritable};
ghost use Rattle.operator_lines.specs.Asking.{connection, Answers, HasNoReply};
ghost use Rattle.operator_lines.specs.declared.sending.SendFault.TheVariants.{Unwritable};
ghost use Rattle.operator_ports.specs.declared.next.Next.TheVariants.{Page};
ghost use Rattle.operator_ports.specs.Steps.{IsSent, Read, Sent};

use crate::next::Next;
use gate_grammar::Command;
use gate_streams::Sink;
use operator_lines::{AskFault, Reply, SendFault, ask};
use std::alloc::{AllocError, Global};
use std::io::Read;
use std::marker::Model;
use std::snapshot::Snapshot;

#[derive(Drop)]
enum Entry {
    Sent(Snapshot<Command>, Result<Reply, AskFault>),
    Page(Snapshot<Vec<u8>>),
    Read(Snapshot<Next>),
}

/// What was done at a gateway, in order: contracts see each step. `Done::ask` alone adds a command.
#[derive(Drop)]
pub struct Done {
    entries: Vec<Entry>,
}

impl Model for Done {
    ghost use Rattle.std.specs.Prelude.{List, map};
    ghost use Rattle.operator_ports.specs.Steps.{Step, step_of};

    ghost Value = { List Step };

    ghost view = { λ done. map step_of done.entries.items };
}

impl Done {
    /// Nothing yet.
    pub fn new(alloc: Global) -> Done
        ensures { result ≡ [] }
    {
        Done {
            entries: Vec::new(alloc),
        }
    }

    /// Sends a command over a connection, and reads its answer, as `operator_lines::ask`. Where memory
    /// runs out before, nothing is sent.
    #[tactic(auto, using(crate::proofs::DoneSteps::one_more))]
    pub fn ask<R: Read, W: Sink>(
        &mut self,
        alloc: Global,
        reader: &mut R,
        writer: &mut W,
        command: &Command,
    ) -> Result<Reply, AskFault>
        ensures sent { IsSent command.now result self.old self.new }
        ensures answered { IfOk result (λ reply. Answers command.now reply
            (connection (W.state writer.old) (R.remaining reader.old))
            (connection (W.state writer.new) (R.remaining reader.new))) }
        ensures unanswered { IfErr result (λ fault. HasNoReply fault command.now
            (connection (W.state writer.old) (R.remaining reader.old))
            (connection (W.state writer.new) (R.remaining reader.new))) }
    {
        if self.entries.reserve(1).is_err() {
            return Err(AskFault::Unsent(SendFault::OutOfMemory));
        }
        let answer = ask(alloc, reader, writer, command);
        self.entries
            .push_reserved(Entry::Sent(Snapshot::of(command), answer));
        answer
    }

    /// Adds the text of a page that was read. The only error is out of memory, and nothing is added.
    #[tactic(auto, using(crate::proofs::DoneSteps::one_more))]
    pub fn page(&mut self, text: &Vec<u8>) -> Result<(), AllocError>
        ensures added { OnOk result (self.new ≡ self.old ++ Read (Page text.now) ∷ []) }
        ensures kept { OnErr result (self.new ≡ self.old) }
    {
        self.entries.reserve(1)?;
        self.entries.push_reserved(Entry::Page(Snapshot::of(text)));
        Ok(())
    }

    /// Adds what was read of the pages. The only error is out of memory, and nothing is added.
    #[tactic(auto, using(crate::proofs::DoneSteps::one_more))]
    pub fn read(&mut self, next: &Next) -> Result<(), AllocError>
        ensures added { OnOk result (self.new ≡ self.old ++ Read next.now ∷ []) }
        ensures kept { OnErr result (self.new ≡ self.old) }
    {
        self.entries.reserve(1)?;
        self.entries.push_reserved(Entry::Read(Snapshot::of(next)));
        Ok(())
    }
}
