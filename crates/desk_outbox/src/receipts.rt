ghost use Rattle.std.specs.Prelude.{◌≡◌};

use crate::labels::Labelled;
use std::marker::Model;
use std::snapshot::Snapshot;

/// Stands for an order that an outbox has taken in: contracts see the order. No other code makes one.
#[derive(Drop)]
pub struct Receipt {
    taken: Snapshot<Labelled>,
}

impl Model for Receipt {
    ghost use Rattle.desk_outbox.specs.Labels.{LabelledView};

    ghost Value = { LabelledView };

    ghost view = { λ receipt. receipt.taken.value };
}

impl Receipt {
    pub(crate) fn of(order: &Labelled) -> Receipt
        ensures { result ≡ order.now }
    {
        Receipt {
            taken: Snapshot::of(order),
        }
    }
}
