use status_memory::{Alarm, Since};
use status_reading::{ShownObject, StatusPage};

/// A gateway: its name, and its last status page, or the cause why there is none, in words.
#[derive(Drop)]
pub struct Gateway<'a> {
    pub name: &'a str,
    pub page: Result<StatusPage<'a>, String>,
    /// Where that page is old.
    pub old: Option<Old>,
    /// The alarms about it.
    pub alarms: Vec<Alarm>,
    /// Since when each object of the page has its state, in the order of the page's objects.
    pub since: &'a [Since],
}

/// An old page: it is still shown, and its objects are stale.
#[derive(Drop)]
pub struct Old {
    /// How many seconds before the clock it was fetched, or its moment is, whichever is more.
    pub age: u32,
    /// Why it is old, in words.
    pub cause: String,
}

/// An object, with the gateway whose page shows it.
#[derive(Clone, Copy)]
pub struct MergedObject<'a> {
    pub gateway: &'a str,
    /// The moment of that gateway's page, and of an old page that moment and its age, at most
    /// 4,294,967,295.
    pub moment: u32,
    /// Whether that page is old.
    pub is_old: bool,
    /// Since when that gateway's pages show the state.
    pub since: Since,
    /// Whether it is a service whose host is DOWN, UNREACHABLE or in downtime.
    pub host_is_out: bool,
    pub row: ShownObject<'a>,
}
