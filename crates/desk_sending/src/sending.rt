ghost use Rattle.std.specs.Prelude.{◌≡◌, ◌++◌, ◌∷◌, [], false, IfOk, IfErr, OnOk};
ghost use Rattle.gate_grammar.specs.Canonical.{canonical_line};
ghost use Rattle.operator_lines.specs.Asking.{connection, Answers, HasNoReply};
ghost use Rattle.gate_grammar.specs.Spelling.{holds};
ghost use Rattle.desk_sending.specs.Audit.{audit_text};
ghost use Rattle.desk_sending.specs.Answers.{answer_text};

use crate::audit::{Sent, audit_line};
use crate::orders::Order;
use gate_model::{Body, push_number};
use gate_streams::Sink;
use operator_effects::{Ending, push_message};
use operator_lines::{AskFault, Reply, ask};
use std::alloc::{AllocError, Global};
use std::io::Read;

/// Sends an order: writes its line and an LF, and reads the answer. Nothing else is written.
///
/// An error is the first fault.
pub fn send_order<R: Read, W: Sink>(
    alloc: Global,
    reader: &mut R,
    writer: &mut W,
    order: &Order,
) -> Result<Reply, AskFault>
    ensures answered { IfOk result (λ reply. Answers order.now reply
        (connection (W.state writer.old) (R.remaining reader.old))
        (connection (W.state writer.new) (R.remaining reader.new))) }
    ensures unanswered { IfErr result (λ fault. HasNoReply fault order.now
        (connection (W.state writer.old) (R.remaining reader.old))
        (connection (W.state writer.new) (R.remaining reader.new))) }
{
    ask(alloc, reader, writer, order.command())
}

/// Appends what a gateway answered to a command, or why there is no answer. The only error is out of
/// memory.
pub fn push_answer(
    out: &mut Vec<u8>,
    body: &Body,
    answer: Result<Reply, AskFault>,
) -> Result<(), AllocError>
    ensures { OnOk result (out.new.items ≡ out.old.items ++ answer_text body.now answer) }
{
    match answer {
        Ok(Reply::Queued(number)) => {
            out.extend_from_slice(b"queued ")?;
            push_number(out, number)
        }
        Ok(reply) => push_message(out, body, Ending::NotQueued(reply)),
        Err(fault) => push_message(out, body, Ending::NoAnswer(fault)),
    }
}

/// The line of the audit log of an order that was sent to a gateway for a user: moment, user, gateway,
/// line and answer, with tabs between them, and an LF. The only error is out of memory.
pub fn audit_of(
    alloc: Global,
    user: &[u8],
    gateway: &str,
    order: &Order,
    answer: Result<Reply, AskFault>,
) -> Result<Vec<u8>, AllocError>
    ensures line { IfOk result (λ line.
        line.items ≡ audit_text order.now.entered.0 user.now gateway.now
        (canonical_line order.now) (answer_text order.now.body answer) ++ 10 ∷ []) }

    // Whatever the texts are, it is one line.
    ensures one { IfOk result (λ _.
        holds 10 (audit_text order.now.entered.0 user.now gateway.now
        (canonical_line order.now) (answer_text order.now.body answer)) ≡ false) }
{
    let mut text = Vec::new(alloc);
    push_answer(&mut text, &order.command().body, answer)?;
    let sent = Sent {
        moment: order.command().entered.0,
        user,
        gateway,
        line: order.line(),
        answer: text.as_slice(),
    };
    audit_line(alloc, sent)
}
