ghost use Rattle.std.specs.Prelude.{◌≡◌, ◌++◌, IfOk, IfErr, OnOk, codes};
ghost use Rattle.std.specs.Str.{bytes_eq};
ghost use Rattle.gate_grammar.specs.Canonical.{canonical_line};
ghost use Rattle.status_reading.specs.Rows.{page_view};
ghost use Rattle.desk_sending.specs.Orders.{is_asked, IsOneLine, IsUnwritable, IsOrder, IsObjection, objection_text};

use desk_forms::{AdmittedForm, FormFault, command_on, given};
use gate_grammar::{Command, round_trip, writable, write_line};
use gate_model::{Body, Moment, Outcome};
use operator_effects::{Ending, push_message};
use operator_lines::{AskFault, SendFault};
use page_changes::foreseen_outcome;
use status_reading::StatusPage;
use std::alloc::{AllocError, Global};
use std::marker::Model;

/// A form's command for a gateway, which contracts see as the command. No other code makes one.
#[derive(Drop)]
pub struct Order {
    command: Command,
    line: Vec<u8>,
}

impl Model for Order {
    ghost use Rattle.std.specs.Prelude.{◌≡◌};
    ghost use Rattle.gate_grammar.specs.declared.commands.Command.{Command};
    ghost use Rattle.gate_grammar.specs.Canonical.{canonical_line};

    ghost Value = { Command };

    ghost view = { λ order. order.command };

    ghost invariant = { λ order. order.line.items ≡ canonical_line order.command };
}

impl Order {
    /// The command.
    pub fn command(&self) -> &Command
        ensures { result.now ≡ self.now }
    {
        &self.command
    }

    /// The command's line, without its LF.
    pub fn line(&self) -> &[u8]
        ensures { result.now ≡ canonical_line self.now }
    {
        self.line.as_slice()
    }
}

/// Why nothing is sent to a gateway.
#[derive(Drop)]
pub enum Objection {
    /// On the gateway's page the form asks for no command.
    Form(FormFault),
    /// By its page, the gateway would refuse the command.
    Refused(Body, Outcome),
    /// No line can hold the command.
    Unwritable(Body),
    /// Memory ran out.
    OutOfMemory,
}

impl From<AllocError> for Objection {
    ghost use Rattle.desk_sending.specs.declared.orders.Objection.TheVariants.{OutOfMemory};

    ghost from_gives = { λ _ objection. objection ≡ OutOfMemory };

    fn from(_: AllocError) -> Objection {
        Objection::OutOfMemory
    }
}

/// Whether a form is for the gateway of this name: its field `gateway` is this name, or it has none.
pub fn is_asked(form: &AdmittedForm, gateway: &str) -> bool
    ensures { result ≡ is_asked gateway.now form.now.fields }
{
    match given(form.fields(), "gateway") {
        Some(name) => name == gateway.as_bytes(),
        None => true,
    }
}

fn order_of(alloc: Global, command: Command) -> Result<Order, Objection>
    ensures order { IfOk result (λ order. order ≡ command) }
    ensures one { IfOk result (λ _. IsOneLine command) }
    ensures refused { IfErr result (IsUnwritable command) }
{
    round_trip();
    if !writable(&command) {
        return Err(Objection::Unwritable(command.body));
    }
    match write_line(alloc, &command) {
        Ok(line) => Ok(Order { command, line }),
        Err(_) => {
            drop(command);
            Err(Objection::OutOfMemory)
        }
    }
}

/// The command that the form of an admitted request asks for now on a gateway's page, where the page
/// shows that the gateway would accept it.
///
/// `Form`: the form asks for none. `Refused` and `Unwritable` have the command. `OutOfMemory` may be
/// returned in place of any other answer.
pub fn order_on(
    alloc: Global,
    page: &StatusPage<'_>,
    now: Moment,
    form: &AdmittedForm,
) -> Result<Order, Objection>
    ensures order { IfOk result (IsOrder (page_view page.now) now form.now) }
    ensures refused { IfErr result (IsObjection (page_view page.now) now form.now) }
{
    let body = match command_on(alloc, page, now, form) {
        Ok(body) => body,
        Err(fault) => return Err(Objection::Form(fault)),
    };
    match foreseen_outcome(alloc, page, &body) {
        Ok(Outcome::Accepted) => order_of(alloc, Command { entered: now, body }),
        Ok(outcome) => Err(Objection::Refused(body, outcome)),
        Err(_) => {
            drop(body);
            Err(Objection::OutOfMemory)
        }
    }
}

/// Appends why nothing is sent, without an end of a line. The only error is out of memory.
pub fn push_objection(out: &mut Vec<u8>, objection: &Objection) -> Result<(), AllocError>
    ensures { OnOk result (out.new.items ≡ out.old.items ++ objection_text objection.now) }
{
    match objection {
        Objection::Form(fault) => out.extend_from_slice(fault.words().as_bytes()),
        Objection::Refused(body, outcome) => push_message(out, body, Ending::Refused(*outcome)),
        Objection::Unwritable(body) => {
            let unsent = AskFault::Unsent(SendFault::Unwritable);
            push_message(out, body, Ending::NoAnswer(unsent))
        }
        Objection::OutOfMemory => out.extend_from_slice(b"out of memory"),
    }
}
