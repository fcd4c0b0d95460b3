use crate::text::Text;

/// Whether a monitored object is a host or a service.
#[derive(Clone, Copy, Debug, PartialEq, Eq)]
pub enum Kind {
    Host,
    Service,
}

/// A monitored object of a table.
#[derive(Clone, Copy, PartialEq, Eq)]
pub struct ObjectId {
    /// The index, from 0, of the object in the table.
    pub place: u32,
    pub kind: Kind,
}

/// A line of the object table: a host, or a service of a host.
#[derive(Debug, Drop)]
pub struct ObjectLine {
    /// The host's name.
    pub host: Text,
    /// The service's name (Nagios calls it the service's description). A host has none.
    pub service: Option<Text>,
    /// For how many seconds after a result the object is fresh. With 0 it always is.
    pub threshold: u32,
}
