ghost use Rattle.std.specs.Prelude.{◌≡◌, length, IfOk, IfErr};
ghost use Rattle.std.specs.List.{AllByRecursion};
ghost use Rattle.status_reading.specs.Rows.{page_view};
ghost use Rattle.desk_forms.specs.Commands.{IsCommandOf};
ghost use Rattle.desk_forms.specs.inner.Commands.{AreCommandsOf};
ghost use Rattle.desk_forms.specs.Offers.{IsAllowed};
ghost use Rattle.desk_forms.specs.Faults.{IsFormFault};

use crate::admitting::AdmittedForm;
use crate::requests::{FormFault, request_of};
use gate_model::{Body, Moment, Text};
use operator_commands::RequestFault;
use operator_effects::{PlanFault, commands_for};
use status_reading::StatusPage;
use std::alloc::Global;

fn commands_on(
    alloc: Global,
    page: &StatusPage<'_>,
    now: Moment,
    form: &AdmittedForm,
) -> Result<Vec<Body>, FormFault>
    ensures commands { IfOk result (λ bodies.
        AreCommandsOf (page_view page.now) now form.now bodies.items) }
    ensures one { IfOk result (λ bodies. length bodies.items ≡ 1) }
    ensures allowed { IfOk result (λ bodies.
        AllByRecursion (IsAllowed (page_view page.now) form.now.user) bodies.items) }
    ensures refused { IfErr result (IsFormFault (page_view page.now) now form.now) }
{
    let user = Text::copied(alloc, form.user().bytes())?;
    let request = request_of(alloc, page, form.fields())?;
    match commands_for(alloc, page, now, user, request) {
        Ok(bodies) => Ok(bodies),
        Err(PlanFault::Request(fault)) => Err(FormFault::Request(fault)),
        // No form has this.
        Err(PlanFault::NoObject) => Err(FormFault::Request(RequestFault::NoCommand)),
        Err(PlanFault::OutOfMemory) => Err(FormFault::OutOfMemory),
    }
}

/// The command that the form of an admitted request asks for now, on a page.
///
/// The error is the first fault of the form. `OutOfMemory` may be returned in place of any other
/// answer.
pub fn command_on(
    alloc: Global,
    page: &StatusPage<'_>,
    now: Moment,
    form: &AdmittedForm,
) -> Result<Body, FormFault>
    ensures command { IfOk result (IsCommandOf (page_view page.now) now form.now) }

    // Whatever the form's bytes are, the command is for what the page shows, in the user's name, and
    // it is no check result and no SHUTDOWN_PROGRAM.
    ensures allowed { IfOk result (IsAllowed (page_view page.now) form.now.user) }

    ensures refused { IfErr result (IsFormFault (page_view page.now) now form.now) }
{
    let mut bodies = commands_on(alloc, page, now, form)?;
    match bodies.pop() {
        Some(body) => Ok(body),
        // It has one.
        None => Err(FormFault::OutOfMemory),
    }
}
