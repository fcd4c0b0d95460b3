ghost use Rattle.std.specs.Prelude.{◌≡◌, ◌+◌, IfOk, IfErr};
ghost use Rattle.status_reading.specs.Rows.{page_view};
ghost use Rattle.desk_sending.specs.Orders.{IsObjection};
ghost use Rattle.desk_outbox.specs.Labels.{label_of, IsLabelledOf, IsOfForm};
ghost use Rattle.desk_outbox.specs.Outbox.{is_late};

use desk_forms::{AdmittedForm, value_or_empty};
use desk_sending::{Objection, Order, order_on};
use gate_model::{Moment, Text};
use status_reading::StatusPage;
use std::alloc::{AllocError, Global};
use std::marker::Model;

// After how many seconds an order is late.
const LATE: u64 = 30;

/// Whose order it is, for which object, and of which moment.
#[derive(Drop)]
pub struct Label {
    /// The user, as the proxy names them.
    pub user: Text,
    /// The host, as the status page spells it.
    pub host: Text,
    /// The service; empty for a host.
    pub service: Text,
    /// When the form was admitted, in seconds since 1970.
    pub at: u32,
}

/// An order with its label. Both are of one admitted form, and no other code makes one.
#[derive(Drop)]
pub struct Labelled {
    label: Label,
    order: Order,
}

impl Model for Labelled {
    ghost use Rattle.desk_outbox.specs.Labels.{LabelledView, IsOfForm};

    ghost Value = { LabelledView };

    ghost view = { λ labelled. record { label = labelled.label; command = labelled.order } };

    ghost invariant = { λ labelled.
        IsOfForm (record { label = labelled.label; command = labelled.order }) };
}

impl Labelled {
    pub fn label(&self) -> &Label
        ensures label { result.now ≡ self.now.label }
        ensures of_form { IsOfForm self.now }
    {
        &self.label
    }

    pub fn order(&self) -> &Order
        ensures order { result.now ≡ self.now.command }
        ensures of_form { IsOfForm self.now }
    {
        &self.order
    }

    /// Whether the order is late at this moment in seconds since 1970: 30 seconds after its form. It is
    /// then not sent any more.
    pub fn is_late(&self, now: u32) -> bool
        ensures { result ≡ is_late now self.now }
    {
        u64::from(now) >= u64::from(self.label.at) + LATE
    }

    pub(crate) fn into_label(self) -> Label
        ensures { result ≡ self.label }
    {
        let Labelled { label, order } = self;
        drop(order);
        label
    }
}

impl Label {
    fn of(alloc: Global, form: &AdmittedForm, now: Moment) -> Result<Label, AllocError>
        ensures { IfOk result (λ label. label ≡ label_of now form.now) }
    {
        let fields = form.fields();
        Ok(Label {
            user: Text::copied(alloc, form.user().bytes())?,
            host: Text::copied(alloc, value_or_empty(fields, "host"))?,
            service: Text::copied(alloc, value_or_empty(fields, "service"))?,
            at: now.0,
        })
    }

    /// The same label once more. The only error is out of memory.
    pub(crate) fn again(&self, alloc: Global) -> Result<Label, AllocError>
        ensures { IfOk result (λ label. label ≡ self.now) }
    {
        Ok(Label {
            user: Text::copied(alloc, self.user.bytes())?,
            host: Text::copied(alloc, self.host.bytes())?,
            service: Text::copied(alloc, self.service.bytes())?,
            at: self.at,
        })
    }
}

/// The order that the form of an admitted request asks for now on a gateway's page, with its label. The
/// errors are those of `order_on`.
pub fn labelled_order(
    alloc: Global,
    page: &StatusPage<'_>,
    now: Moment,
    form: &AdmittedForm,
) -> Result<Labelled, Objection>
    ensures order { IfOk result (IsLabelledOf (page_view page.now) now form.now) }
    ensures refused { IfErr result (IsObjection (page_view page.now) now form.now) }
{
    let label = Label::of(alloc, form, now)?;
    let order = order_on(alloc, page, now, form)?;
    Ok(Labelled { label, order })
}
