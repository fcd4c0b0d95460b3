ghost use Rattle.std.specs.Prelude.{◌≡◌, [], Some};

use crate::fault::ServeFault;
use gate_reader::Report;
use std::alloc::Global;

/// How a daemon ended.
#[derive(Drop)]
pub struct Served {
    /// What its clients were answered: each client's number with the reports of its connections, the
    /// operator's first, and then those of the agents' workers, from 1. None where no gateway ran,
    /// or a thread of it couldn't be started.
    pub reports: Vec<(u32, Vec<Report>)>,
    /// What stopped it early.
    pub fault: Option<ServeFault>,
}

/// A daemon that ended without reports.
pub fn without_reports(alloc: Global, fault: ServeFault) -> Served
    ensures reports { result.reports.items ≡ [] }
    ensures fault { result.fault ≡ Some fault }
{
    Served {
        reports: Vec::new(alloc),
        fault: Some(fault),
    }
}
