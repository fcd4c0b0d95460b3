ghost use Rattle.std.specs.Prelude.{◌≡◌, ◌++◌, OnOk, IfOk};
ghost use Rattle.status_view.specs.Shapes.{shape_view};
ghost use Rattle.status_view.specs.Page.{seconds_of, head_nodes, end_nodes, page_nodes};

use crate::asked_layout::lay_out_filter;
use crate::head_layout::{lay_out_alarms, lay_out_document, lay_out_title};
use crate::layout::{EntryList, Layout, Node};
use crate::lists_layout::lay_out_entries;
use crate::objects_layout::lay_out_objects;
use crate::summary_layout::lay_out_summary;
use status_memory::{Alarm, Since};
use status_merge::{Choice, Counts, Sort};
use status_reading::{ShownAcknowledgement, ShownSource, State};
use std::alloc::{AllocError, Global};

/// What decides the markup of a gateway's lines: no text is in it.
#[derive(Drop)]
pub struct GatewayShape {
    /// The moment of its page, where there is one.
    pub moment: Option<u32>,
    pub alarms: Vec<Alarm>,
}

/// What decides the markup of an object's row: no text is in it.
#[derive(Clone, Copy)]
pub struct ObjectShape {
    pub is_host: bool,
    pub state: State,
    pub last: Option<u32>,
    pub stale: bool,
    pub acknowledgement: ShownAcknowledgement,
    /// The index, among the comments that the page shows, of the last one by which it is
    /// acknowledged.
    pub reason: Option<usize>,
    pub depth: u32,
    /// Whether it is a service whose host is DOWN, UNREACHABLE or in downtime.
    pub host_is_out: bool,
    /// Whether it needs attention: an unhandled problem, or stale and no problem.
    pub is_urgent: bool,
    /// The moment of the page.
    pub moment: u32,
    pub since: Since,
}

/// What a comment's row shows beside its texts. The moment is in seconds since 1970.
#[derive(Clone, Copy)]
pub struct CommentMarks {
    pub source: ShownSource,
    pub persistent: bool,
    pub moment: u32,
}

/// What a downtime entry's row shows beside its texts. Moments are in seconds since 1970.
#[derive(Clone, Copy)]
pub struct DowntimeMarks {
    pub fixed: bool,
    pub trigger: u32,
    pub start: u32,
    pub end: u32,
    pub duration: u32,
    pub begin: Option<u32>,
    /// The moment of the page.
    pub moment: u32,
}

/// What the row of an entry shows beside its texts.
#[derive(Clone, Copy)]
pub enum EntryMarks {
    Comment(CommentMarks),
    Downtime(DowntimeMarks),
}

/// What decides the markup of the row of a comment or a downtime entry: no text is in it.
#[derive(Drop)]
pub struct EntryShape {
    pub is_host: bool,
    pub marks: EntryMarks,
    /// The entry's id at each gateway that has it.
    pub ids: Vec<u32>,
}

/// Which texts a query asks for: no text is in it.
#[derive(Clone, Copy)]
pub struct AskedShape {
    pub host: bool,
    pub hostname: bool,
    pub service: bool,
    pub output: bool,
    pub gateway: bool,
}

/// What decides the markup of a page: states, marks, moments and counts. No text is in it, so none
/// can change a tag.
#[derive(Drop)]
pub struct PageShape {
    pub choice: Choice,
    /// Which texts the query asks for, and what it asks of the marks.
    pub texts: AskedShape,
    pub acknowledged: Option<bool>,
    pub downtime: Option<bool>,
    /// The order of the list.
    pub sort: Sort,
    /// The number of the page, from 1, and how many objects the query selects.
    pub page: u32,
    pub selected: usize,
    /// Whether there is a page where rows can be marked.
    pub marks: bool,
    pub refresh: u32,
    /// Whether the page has the form. Then it is not loaded again, so that nothing that is typed is
    /// lost.
    pub form: bool,
    /// How many objects there are.
    pub all: usize,
    /// How many of them the query takes, whatever their states.
    pub counts: Counts,
    /// How many of these are PENDING.
    pub pending: usize,
    /// How many of all objects need attention.
    pub urgent: usize,
    pub gateways: Vec<GatewayShape>,
    pub objects: Vec<ObjectShape>,
    pub comments: Vec<EntryShape>,
    pub downtimes: Vec<EntryShape>,
}

// When the browser asks again: never where the page has the form.
fn seconds_of(shape: &PageShape) -> u32
    ensures { result ≡ seconds_of (shape_view shape.now) }
{
    if shape.form { 0 } else { shape.refresh }
}

fn lay_out_head(layout: &mut Layout, shape: &PageShape) -> Result<(), AllocError>
    ensures { OnOk result (layout.new ≡ layout.old ++ head_nodes (shape_view shape.now)) }
{
    let gateways = shape.gateways.as_slice();
    lay_out_document(layout, seconds_of(shape), shape.urgent)?;
    lay_out_title(layout, gateways)?;
    lay_out_alarms(layout, gateways)?;
    lay_out_summary(layout, shape)?;
    lay_out_filter(layout, shape)
}

/// Appends the end of a page of states.
#[tactic(auto, unfolding(crate::specs::Page::end_nodes))]
pub fn lay_out_end(layout: &mut Layout) -> Result<(), AllocError>
    ensures { OnOk result (layout.new ≡ layout.old ++ end_nodes) }
{
    layout.put(&[
        Node::Markup("</main><footer><a href=\"/status.json\">status.json</a> &middot; "),
        Node::Markup("<a href=\"/metrics\">metrics</a></footer>\n</body></html>\n"),
    ])
}

/// The page of a shape: its markup and its numbers, with a slot for each text. The only error is
/// out of memory.
pub fn lay_out(alloc: Global, shape: &PageShape) -> Result<Layout, AllocError>
    ensures { IfOk result (λ layout. layout ≡ page_nodes (shape_view shape.now)) }
{
    let mut layout = Layout::new(alloc);
    lay_out_head(&mut layout, shape)?;
    lay_out_objects(&mut layout, shape)?;
    lay_out_entries(&mut layout, EntryList::Comments, shape.comments.as_slice())?;
    lay_out_entries(
        &mut layout,
        EntryList::Downtimes,
        shape.downtimes.as_slice(),
    )?;
    lay_out_end(&mut layout)?;
    Ok(layout)
}
