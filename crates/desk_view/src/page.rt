ghost use Rattle.std.specs.Prelude.{◌≡◌, ◌++◌, IfOk, OnOk, map};
ghost use Rattle.status_reading.specs.Rows.{object_view, comment_view, downtime_view};
ghost use Rattle.std.specs.List.{flat_map};
ghost use Rattle.status_view.specs.Filling.{html_bytes};
ghost use Rattle.desk_view.specs.Page.{is_of, shows, again_part, note_opening, colon_after, note_parts, said_parts, comment_parts, downtime_parts, state_row, comment_row, downtime_row, states_parts, comments_parts, downtimes_parts, gateway_parts, head_parts, forms_parts, page_parts};

use crate::fields::{ACKNOWLEDGE, COMMENT, DOWNTIME, PASSIVE, UNACKNOWLEDGE};
use crate::forms::{FormOf, put_entry_form, put_form};
use crate::parts::{Part, put};
use crate::states::put_state;
use html_text::Html;
use status_reading::{ShownComment, ShownDowntime, ShownObject, StatusPage};
use std::alloc::{AllocError, Global};

/// The page of a gateway, with the gateway's name.
#[derive(Clone, Copy)]
pub struct ShownAt<'a, 't> {
    pub name: &'a str,
    pub page: &'a StatusPage<'t>,
}

/// What became of a command at a gateway.
#[derive(Clone, Copy)]
pub struct Note<'a> {
    /// Empty where it is of none.
    pub gateway: &'a str,
    pub text: &'a [u8],
    /// Whether it failed; otherwise it is under way or done.
    pub is_alarm: bool,
}

/// What the page of an object shows.
#[derive(Clone, Copy)]
pub struct DeskPage<'a, 't> {
    pub title: &'a str,
    /// The user, as the proxy names them.
    pub user: &'a [u8],
    pub of: FormOf<'a>,
    /// Whether a browser loads it again, after two seconds.
    pub again: bool,
    pub notes: &'a [Note<'a>],
    /// The gateways that show the object.
    pub gateways: &'a [ShownAt<'a, 't>],
}

fn is_of(of: FormOf<'_>, host: &[u8], service: &[u8]) -> bool
    ensures { result ≡ is_of of.entry host.now service.now }
{
    host == of.host && service == of.service
}

#[tactic(auto, unfolding(crate::specs::Page::said_parts))]
fn put_said<'x>(html: &mut Html, author: &'x [u8], text: &'x [u8]) -> Result<(), AllocError>
    ensures { OnOk result (html.new ≡ html.old ++ html_bytes (said_parts author.now text.now)) }
{
    put(
        html,
        &[
            Part::Markup("<li>"),
            Part::Text(author),
            Part::Markup(": "),
            Part::Text(text),
        ],
    )
}

fn put_comment(
    html: &mut Html,
    of: FormOf<'_>,
    gateway: &str,
    row: &ShownComment<'_>,
) -> Result<(), AllocError>
    ensures { OnOk result (html.new ≡ html.old
        ++ html_bytes (comment_parts of.entry gateway.now (comment_view row.now))) }
{
    put_said(html, row.author, row.text)?;
    put_entry_form(html, of, "uncomment", gateway, row.id, "Delete comment")
}

fn put_downtime(
    html: &mut Html,
    of: FormOf<'_>,
    gateway: &str,
    row: &ShownDowntime<'_>,
) -> Result<(), AllocError>
    ensures { OnOk result (html.new ≡ html.old
        ++ html_bytes (downtime_parts of.entry gateway.now (downtime_view row.now))) }
{
    put_said(html, row.author, row.text)?;
    put_entry_form(html, of, "cancel", gateway, row.id, "Cancel downtime")
}

#[tactic(auto, unfolding(crate::specs::Page::state_row))]
fn put_state_row<'x>(
    html: &mut Html,
    of: FormOf<'_>,
    gateway: &'x str,
    moment: u32,
    row: &ShownObject<'x>,
) -> Result<(), AllocError>
    ensures { OnOk result (html.new ≡ html.old
        ++ html_bytes (state_row of.entry gateway.now moment (object_view row.now))) }
{
    if is_of(of, row.host, row.service) {
        put_state(html, gateway, moment, row)
    } else {
        Ok(())
    }
}

#[tactic(auto, using(crate::proofs::PutSteps::bytes_more))]
fn put_states<'x>(
    html: &mut Html,
    of: FormOf<'_>,
    gateway: &'x str,
    moment: u32,
    rows: &[ShownObject<'x>],
) -> Result<(), AllocError>
    ensures { OnOk result (html.new ≡ html.old
        ++ html_bytes (states_parts of.entry gateway.now moment (map object_view rows.now))) }
{
    for row in rows {
        put_state_row(html, of, gateway, moment, row)?;
    }
    Ok(())
}

#[tactic(auto, unfolding(crate::specs::Page::comment_row))]
fn put_comment_row(
    html: &mut Html,
    of: FormOf<'_>,
    gateway: &str,
    row: &ShownComment<'_>,
) -> Result<(), AllocError>
    ensures { OnOk result (html.new ≡ html.old
        ++ html_bytes (comment_row of.entry gateway.now (comment_view row.now))) }
{
    if is_of(of, row.host, row.service) {
        put_comment(html, of, gateway, row)
    } else {
        Ok(())
    }
}

#[tactic(auto, using(crate::proofs::PutSteps::bytes_more))]
fn put_comments(
    html: &mut Html,
    of: FormOf<'_>,
    gateway: &str,
    rows: &[ShownComment<'_>],
) -> Result<(), AllocError>
    ensures { OnOk result (html.new ≡ html.old
        ++ html_bytes (comments_parts of.entry gateway.now (map comment_view rows.now))) }
{
    for row in rows {
        put_comment_row(html, of, gateway, row)?;
    }
    Ok(())
}

#[tactic(auto, unfolding(crate::specs::Page::downtime_row))]
fn put_downtime_row(
    html: &mut Html,
    of: FormOf<'_>,
    gateway: &str,
    row: &ShownDowntime<'_>,
) -> Result<(), AllocError>
    ensures { OnOk result (html.new ≡ html.old
        ++ html_bytes (downtime_row of.entry gateway.now (downtime_view row.now))) }
{
    if is_of(of, row.host, row.service) {
        put_downtime(html, of, gateway, row)
    } else {
        Ok(())
    }
}

#[tactic(auto, using(crate::proofs::PutSteps::bytes_more))]
fn put_downtimes(
    html: &mut Html,
    of: FormOf<'_>,
    gateway: &str,
    rows: &[ShownDowntime<'_>],
) -> Result<(), AllocError>
    ensures { OnOk result (html.new ≡ html.old
        ++ html_bytes (downtimes_parts of.entry gateway.now (map downtime_view rows.now))) }
{
    for row in rows {
        put_downtime_row(html, of, gateway, row)?;
    }
    Ok(())
}

fn put_gateway(html: &mut Html, of: FormOf<'_>, shown: ShownAt<'_, '_>) -> Result<(), AllocError>
    ensures { OnOk result (html.new ≡ html.old ++ html_bytes (gateway_parts of.entry shown.entry)) }
{
    let page = shown.page;
    put_states(html, of, shown.name, page.moment, page.objects.as_slice())?;
    put(html, &[Part::Markup("<ul>\n")])?;
    put_comments(html, of, shown.name, page.comments.as_slice())?;
    put_downtimes(html, of, shown.name, page.downtimes.as_slice())?;
    put(html, &[Part::Markup("</ul>\n")])
}

/// A browser loads the page again after two seconds, or it doesn't.
pub(crate) fn again_part(again: bool) -> &'static str
    ensures { result.now ≡ again_part again }
{
    if again {
        "<meta http-equiv=\"refresh\" content=\"2\">"
    } else {
        ""
    }
}

fn note_opening(is_alarm: bool) -> &'static str
    ensures { result.now ≡ note_opening is_alarm }
{
    if is_alarm {
        "<p class=\"alarm\" role=\"alert\">"
    } else {
        "<p class=\"soft\" role=\"status\">"
    }
}

fn colon_after(gateway: &str) -> &'static str
    ensures { result.now ≡ colon_after gateway.now }
{
    if gateway.is_empty() { "" } else { ": " }
}

#[tactic(auto, unfolding(crate::specs::Page::note_parts))]
fn put_note(html: &mut Html, note: Note<'_>) -> Result<(), AllocError>
    ensures { OnOk result (html.new ≡ html.old ++ html_bytes (note_parts note.entry)) }
{
    put(
        html,
        &[
            Part::Markup(note_opening(note.is_alarm)),
            Part::Text(note.gateway.as_bytes()),
            Part::Markup(colon_after(note.gateway)),
            Part::Text(note.text),
            Part::Markup("</p>\n"),
        ],
    )
}

/// Appends what became of commands. The only error is out of memory.
#[tactic(auto, using(crate::proofs::PutSteps::bytes_more))]
pub(crate) fn put_notes(html: &mut Html, notes: &[Note<'_>]) -> Result<(), AllocError>
    ensures { OnOk result (html.new ≡ html.old ++ html_bytes (flat_map note_parts notes.now)) }
{
    for note in notes {
        put_note(html, *note)?;
    }
    Ok(())
}

#[tactic(auto, unfolding(crate::specs::Page::head_parts))]
fn put_head(html: &mut Html, page: DeskPage<'_, '_>) -> Result<(), AllocError>
    ensures { OnOk result (html.new ≡ html.old ++ html_bytes (head_parts page.entry)) }
{
    put(
        html,
        &[
            Part::Markup("<!doctype html><html lang=\"en\"><head><meta charset=\"utf-8\"><title>"),
            Part::Text(page.of.host),
            Part::Markup(
                "</title><meta name=\"viewport\" content=\"width=device-width,initial-scale=1\">",
            ),
            Part::Markup(
                "<meta name=\"referrer\" content=\"same-origin\"><link rel=\"stylesheet\" href=\"/style.css\">",
            ),
            Part::Markup(again_part(page.again)),
            Part::Markup("</head><body><main><p><a href=\"/\">"),
            Part::Text(page.title.as_bytes()),
            Part::Markup("</a>, as "),
            Part::Text(page.user),
            Part::Markup(", <a href=\"/marks\">several objects</a></p><h1>"),
            Part::Text(page.of.host),
            Part::Markup(" "),
            Part::Text(page.of.service),
            Part::Markup("</h1>\n"),
        ],
    )
}

fn put_forms(html: &mut Html, of: FormOf<'_>) -> Result<(), AllocError>
    ensures { OnOk result (html.new ≡ html.old ++ html_bytes (forms_parts of.entry)) }
{
    put_form(html, of, "acknowledge", ACKNOWLEDGE)?;
    put_form(html, of, "unacknowledge", UNACKNOWLEDGE)?;
    put_form(html, of, "comment", COMMENT)?;
    put_form(html, of, "downtime", DOWNTIME)?;
    put_form(html, of, "passive", PASSIVE)?;
    put(html, &[Part::Markup("</main></body></html>\n")])
}

/// Whether one of these rows is of an object, named as the page spells it.
pub fn shows(rows: &[ShownObject<'_>], host: &[u8], service: &[u8]) -> bool
    ensures { result ≡ shows host.now service.now (map object_view rows.now) }
{
    for row in rows {
        if row.host == host && row.service == service {
            return true;
        }
    }
    false
}

/// The page of an object, with its forms. The only error is out of memory.
pub fn desk_page(alloc: Global, page: DeskPage<'_, '_>) -> Result<Html, AllocError>
    ensures { IfOk result (λ html. html ≡ html_bytes (page_parts page.entry)) }
{
    let mut html = Html::new(alloc);
    put_head(&mut html, page)?;
    put_notes(&mut html, page.notes)?;
    for shown in page.gateways {
        put_gateway(&mut html, page.of, *shown)?;
    }
    put_forms(&mut html, page.of)?;
    Ok(html)
}
