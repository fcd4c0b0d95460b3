ghost use Rattle.std.specs.Prelude.{◌≡◌, [], ◌++◌, map, OnOk};
ghost use Rattle.status_view.specs.Layout.{node_view, nodes_if};

use status_merge::{Choice, Sort};
use std::alloc::{AllocError, Global};
use std::marker::Model;

/// A text of an object's row.
#[derive(Clone, Copy)]
pub enum ObjectText {
    Host,
    Service,
    /// The link to the page of the object, to that of its host, and to the list of its host's objects.
    Link,
    HostLink,
    HostsLink,
    /// An output's words, and its performance data.
    Output,
    Performance,
    /// The name of its gateway.
    Gateway,
}

/// The list that an entry stands in.
#[derive(Clone, Copy)]
pub enum EntryList {
    Comments,
    Downtimes,
}

/// A text of the row of a comment or a downtime entry.
#[derive(Clone, Copy)]
pub enum EntryText {
    Host,
    Service,
    /// The link to the page of its object.
    Link,
    Author,
    Words,
    /// The name of the gateway of this index among those that have the entry.
    Gateway(usize),
}

/// A text of a change; three as values in a URL's query, and the link to the page of its object for its
/// gateway.
#[derive(Clone, Copy)]
pub enum ChangeText {
    Host,
    HostInLink,
    Service,
    ServiceInLink,
    /// The name of its gateway.
    Gateway,
    GatewayInLink,
    Link,
}

/// A text that the query asks for.
#[derive(Clone, Copy)]
pub enum AskedText {
    Host,
    Hostname,
    Service,
    Output,
    Gateway,
}

/// The text that a slot of a page is filled with.
#[derive(Clone, Copy)]
pub enum Slot {
    Title,
    Asked(AskedText),
    /// The query of a URL that asks for the page of this number of the list of objects.
    Query(usize),
    /// The query of a URL that asks for its first page in this order.
    Sorted(Sort),
    /// The query of a URL that asks for the first page of the objects of this choice.
    Chosen(Choice),
    /// The name of the gateway of this index.
    Gateway(usize),
    /// Why there is no page of the gateway of this index.
    Cause(usize),
    /// Of the object of this index among those shown.
    Object(usize, ObjectText),
    /// Of the entry of this index in its list.
    Entry(EntryList, usize, EntryText),
    /// Of the change of this index.
    Change(usize, ChangeText),
}

/// A part of a page: markup, a number, or a slot for a text.
#[derive(Clone, Copy)]
pub enum Node {
    Markup(&'static str),
    Number(u64),
    Slot(Slot),
}

/// The parts of a page, in order.
#[derive(Drop)]
pub struct Layout {
    nodes: Vec<Node>,
}

impl Model for Layout {
    ghost use Rattle.std.specs.Prelude.{List, map};
    ghost use Rattle.status_view.specs.Layout.{NodeView, node_view};

    ghost Value = { List NodeView };

    ghost view = { λ layout. map node_view layout.nodes.items };
}

impl Layout {
    pub(crate) fn new(alloc: Global) -> Layout
        ensures { result ≡ [] }
    {
        Layout {
            nodes: Vec::new(alloc),
        }
    }

    /// The parts.
    pub fn nodes(&self) -> &[Node]
        ensures { map node_view result.now ≡ self.now }
    {
        self.nodes.as_slice()
    }

    /// Appends some parts.
    pub(crate) fn put(&mut self, nodes: &[Node]) -> Result<(), AllocError>
        ensures { OnOk result (self.new ≡ self.old ++ map node_view nodes.now) }
    {
        self.nodes.extend_from_slice(nodes)
    }

    /// Appends some parts where the condition holds.
    pub(crate) fn put_if(&mut self, condition: bool, nodes: &[Node]) -> Result<(), AllocError>
        ensures { OnOk result (self.new
            ≡ self.old ++ nodes_if condition (map node_view nodes.now)) }
    {
        if condition { self.put(nodes) } else { Ok(()) }
    }
}
