//! The texts of a page, each in its slot.

ghost use Rattle.std.specs.Prelude.{◌≡◌, ◌==◌, ◌<◌, ◌++◌, position, length, IfOk, IfSome, OnOk};
ghost use Rattle.form_urlencoded.specs.Form.{byte_serialize};
ghost use Rattle.html_text.specs.Escaping.{html_text};
ghost use Rattle.std.specs.Str.Lossy.{utf8_lossy};
ghost use Rattle.status_reading.specs.Plain.{plain_bytes};
ghost use Rattle.status_merge.specs.Asking.{asked_by, with_choice};
ghost use Rattle.status_view.specs.Layout.{node_view};
ghost use Rattle.status_view.specs.Links.{object_link, object_link_at, hosts_link, page_query};
ghost use Rattle.status_view.specs.Filling.{old_cause, cause_text, words_of, performance_of, object_text, entry_text, change_text, asked_text, slot_text, with_text, filled, piece_bytes, html_bytes};

use crate::layout::{AskedText, ChangeText, EntryList, EntryText, Layout, Node, ObjectText, Slot};
use crate::links::{hosts_link, object_link, object_link_at, page_query, push_value};
use crate::view::View;
use html_text::Html;
use status_memory::GatewayChange;
use status_merge::{Choice, Gateway, MergedObject, Old, Origin, Query, Sort};
use status_reading::plain_bytes;
use std::alloc::{AllocError, Global};

// What a field of a page stands for.
fn put_field(alloc: Global, html: &mut Html, field: &[u8]) -> Result<(), AllocError>
    ensures { OnOk result (html.new ≡ html.old ++ html_text (plain_bytes field.now)) }
{
    html.text(plain_bytes(alloc, field)?.as_slice())
}

// The link to the page of an object.
fn put_link(alloc: Global, html: &mut Html, host: &[u8], service: &[u8]) -> Result<(), AllocError>
    ensures { OnOk result (html.new ≡ html.old ++ html_text (object_link host.now service.now)) }
{
    html.text(object_link(alloc, host, service)?.as_str().as_bytes())
}

// The same for the gateway of a name alone.
fn put_link_at(
    alloc: Global,
    html: &mut Html,
    host: &[u8],
    service: &[u8],
    gateway: &str,
) -> Result<(), AllocError>
    ensures { OnOk result (html.new
        ≡ html.old ++ html_text (object_link_at host.now service.now gateway.now)) }
{
    html.text(
        object_link_at(alloc, host, service, gateway)?
            .as_str()
            .as_bytes(),
    )
}

// The link to the list of the objects of a host.
fn put_hosts_link(alloc: Global, html: &mut Html, host: &[u8]) -> Result<(), AllocError>
    ensures { OnOk result (html.new ≡ html.old ++ html_text (hosts_link host.now)) }
{
    html.text(hosts_link(alloc, host)?.as_str().as_bytes())
}

// A text as a value in a URL's query.
fn put_in_link(alloc: Global, html: &mut Html, text: &[u8]) -> Result<(), AllocError>
    ensures { OnOk result (html.new ≡ html.old ++ html_text (byte_serialize text.now)) }
{
    let mut value = String::new(alloc);
    push_value(&mut value, text)?;
    html.text(value.as_str().as_bytes())
}

fn put_old_cause(html: &mut Html, old: &Option<Old>) -> Result<(), AllocError>
    ensures { OnOk result (html.new ≡ html.old ++ html_text (old_cause old.now)) }
{
    match old {
        Some(old) => html.text(old.cause.as_str().as_bytes()),
        None => html.text(b""),
    }
}

fn put_cause(html: &mut Html, gateway: &Gateway<'_>) -> Result<(), AllocError>
    ensures { OnOk result (html.new ≡ html.old ++ html_text (cause_text gateway.now)) }
{
    match &gateway.page {
        Ok(_) => put_old_cause(html, &gateway.old),
        Err(cause) => html.text(cause.as_str().as_bytes()),
    }
}

fn bar(output: &[u8]) -> Option<usize>
    ensures offset { result ≡ position (λ byte. byte == 124) output.now }
    ensures within { IfSome result (λ offset. offset < length output.now) }
{
    output.iter().position(|byte| *byte == b'|')
}

/// An output's words: what stands before the first vertical bar; all of it where there is none.
pub fn words_of(output: &[u8]) -> &[u8]
    ensures { result.now ≡ words_of output.now }
{
    match bar(output) {
        Some(offset) => &output[..offset],
        None => output,
    }
}

/// An output's performance data: what stands after that bar; nothing where there is none.
pub fn performance_of(output: &[u8]) -> &[u8]
    ensures { result.now ≡ performance_of output.now }
{
    match bar(output) {
        Some(offset) => &output[offset + 1..],
        None => b"",
    }
}

fn put_object(
    alloc: Global,
    html: &mut Html,
    shown: &MergedObject<'_>,
    text: ObjectText,
) -> Result<(), AllocError>
    ensures { OnOk result (html.new ≡ html.old ++ html_text (object_text text shown.now)) }
{
    match text {
        ObjectText::Host => put_field(alloc, html, shown.row.host),
        ObjectText::Service => put_field(alloc, html, shown.row.service),
        ObjectText::Link => put_link(alloc, html, shown.row.host, shown.row.service),
        ObjectText::HostLink => put_link(alloc, html, shown.row.host, b""),
        ObjectText::HostsLink => put_hosts_link(alloc, html, shown.row.host),
        ObjectText::Output => put_field(alloc, html, words_of(shown.row.output)),
        ObjectText::Performance => put_field(alloc, html, performance_of(shown.row.output)),
        ObjectText::Gateway => html.text(shown.gateway.as_bytes()),
    }
}

/// The texts of the row of a comment or a downtime entry, and the gateways that have it.
#[derive(Clone, Copy)]
struct Entry<'a> {
    host: &'a [u8],
    service: &'a [u8],
    author: &'a [u8],
    words: &'a [u8],
    origins: &'a [Origin<'a>],
}

fn put_entry(
    alloc: Global,
    html: &mut Html,
    entry: Entry<'_>,
    text: EntryText,
) -> Result<(), AllocError>
    ensures { let entry = entry.entry in OnOk result (html.new
        ≡ html.old ++ html_text (entry_text text entry.host.now entry.service.now
        entry.author.now entry.words.now entry.origins.now)) }
{
    match text {
        EntryText::Host => put_field(alloc, html, entry.host),
        EntryText::Service => put_field(alloc, html, entry.service),
        EntryText::Link => put_link(alloc, html, entry.host, entry.service),
        EntryText::Author => put_field(alloc, html, entry.author),
        EntryText::Words => put_field(alloc, html, entry.words),
        EntryText::Gateway(index) => match entry.origins.get(index) {
            Some(origin) => html.text(origin.gateway.as_bytes()),
            None => html.text(b""),
        },
    }
}

fn fill_entry(
    alloc: Global,
    html: &mut Html,
    view: &View<'_>,
    list: EntryList,
    index: usize,
    text: EntryText,
) -> Result<(), AllocError>
    ensures { OnOk result (html.new
        ≡ html.old ++ html_text (slot_text view.entry.now (Slot.Entry list index text))) }
{
    match list {
        EntryList::Comments => match view.comments.get(index) {
            Some(line) => {
                let row = &line.row;
                let entry = Entry {
                    host: row.host,
                    service: row.service,
                    author: row.author,
                    words: row.text,
                    origins: line.origins.as_slice(),
                };
                put_entry(alloc, html, entry, text)
            }
            None => html.text(b""),
        },
        EntryList::Downtimes => match view.downtimes.get(index) {
            Some(line) => {
                let row = &line.row;
                let entry = Entry {
                    host: row.host,
                    service: row.service,
                    author: row.author,
                    words: row.text,
                    origins: line.origins.as_slice(),
                };
                put_entry(alloc, html, entry, text)
            }
            None => html.text(b""),
        },
    }
}

// What a field of a page stands for, in UTF-8.
fn put_utf8(alloc: Global, html: &mut Html, field: &[u8]) -> Result<(), AllocError>
    ensures { OnOk result
        (html.new ≡ html.old ++ html_text (utf8_lossy (plain_bytes field.now))) }
{
    let plain = plain_bytes(alloc, field)?;
    let text = String::from_utf8_lossy(alloc, plain.as_slice())?;
    html.text(text.as_str().as_bytes())
}

fn put_change(
    alloc: Global,
    html: &mut Html,
    shown: &GatewayChange<'_>,
    text: ChangeText,
) -> Result<(), AllocError>
    ensures { OnOk result (html.new ≡ html.old ++ html_text (change_text text shown.now)) }
{
    match text {
        ChangeText::Host => put_utf8(alloc, html, shown.change.host.as_slice()),
        ChangeText::HostInLink => put_in_link(alloc, html, shown.change.host.as_slice()),
        ChangeText::Service => put_utf8(alloc, html, shown.change.service.as_slice()),
        ChangeText::ServiceInLink => put_in_link(alloc, html, shown.change.service.as_slice()),
        ChangeText::Gateway => html.text(shown.gateway.as_bytes()),
        ChangeText::GatewayInLink => put_in_link(alloc, html, shown.gateway.as_bytes()),
        ChangeText::Link => put_link_at(
            alloc,
            html,
            shown.change.host.as_slice(),
            shown.change.service.as_slice(),
            shown.gateway,
        ),
    }
}

// A text that a query asks for.
fn put_asked(html: &mut Html, query: &Query, text: AskedText) -> Result<(), AllocError>
    ensures { OnOk result
        (html.new ≡ html.old ++ html_text (asked_text text (asked_by query.now))) }
{
    match text {
        AskedText::Host => html.text(query.host.as_str().as_bytes()),
        AskedText::Hostname => html.text(query.hostname.as_slice()),
        AskedText::Service => html.text(query.service.as_str().as_bytes()),
        AskedText::Output => html.text(query.output.as_str().as_bytes()),
        AskedText::Gateway => html.text(query.gateway.as_str().as_bytes()),
    }
}

// The query that asks for a page of the list of the objects of a choice in an order.
fn put_query(
    alloc: Global,
    html: &mut Html,
    query: &Query,
    choice: Choice,
    sort: Sort,
    page: usize,
) -> Result<(), AllocError>
    ensures { let asked = with_choice choice (asked_by query.now) in OnOk result
        (html.new ≡ html.old ++ html_text (page_query asked query.now.refresh sort page)) }
{
    html.text(
        page_query(alloc, query, choice, sort, page)?
            .as_str()
            .as_bytes(),
    )
}

fn fill_slot(alloc: Global, html: &mut Html, view: &View<'_>, slot: Slot) -> Result<(), AllocError>
    ensures { OnOk result (html.new ≡ html.old ++ html_text (slot_text view.entry.now slot)) }
{
    match slot {
        Slot::Title => html.text(view.title.as_bytes()),
        Slot::Asked(text) => put_asked(html, view.query, text),
        Slot::Query(page) => {
            let query = view.query;
            put_query(alloc, html, query, query.choice, query.sort, page)
        }
        Slot::Sorted(sort) => put_query(alloc, html, view.query, view.query.choice, sort, 1),
        Slot::Chosen(choice) => put_query(alloc, html, view.query, choice, view.query.sort, 1),
        Slot::Gateway(index) => match view.gateways.get(index) {
            Some(gateway) => html.text(gateway.name.as_bytes()),
            None => html.text(b""),
        },
        Slot::Cause(index) => match view.gateways.get(index) {
            Some(gateway) => put_cause(html, gateway),
            None => html.text(b""),
        },
        Slot::Object(index, text) => match view.objects.get(index) {
            Some(shown) => put_object(alloc, html, shown, text),
            None => html.text(b""),
        },
        Slot::Entry(list, index, text) => fill_entry(alloc, html, view, list, index, text),
        Slot::Change(index, text) => match view.changes.get(index) {
            Some(shown) => put_change(alloc, html, shown, text),
            None => html.text(b""),
        },
    }
}

fn fill_node(alloc: Global, html: &mut Html, view: &View<'_>, node: Node) -> Result<(), AllocError>
    ensures { OnOk result (html.new
        ≡ html.old ++ piece_bytes (with_text (slot_text view.entry.now) (node_view node))) }
{
    match node {
        Node::Markup(markup) => html.markup(markup),
        Node::Number(number) => html.number(number),
        Node::Slot(slot) => fill_slot(alloc, html, view, slot),
    }
}

/// Writes a page: its markup and its numbers as they were laid out, and in each slot its text,
/// which is escaped. The only error is out of memory.
pub fn fill(alloc: Global, layout: &Layout, view: &View<'_>) -> Result<Html, AllocError>
    ensures { IfOk result (λ html. html ≡ html_bytes (filled view.entry.now layout.now)) }
{
    let mut html = Html::new(alloc);
    for node in layout.nodes() {
        fill_node(alloc, &mut html, view, *node)?;
    }
    Ok(html)
}
