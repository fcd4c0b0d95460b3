//! The forms of an object's page.

ghost use Rattle.std.specs.Prelude.{◌≡◌, ◌++◌, OnOk};
ghost use Rattle.status_view.specs.Filling.{html_bytes};
ghost use Rattle.desk_view.specs.Forms.{open_form, form, entry_fields, entry_form};

use crate::parts::{Part, put};
use html_text::Html;
use std::alloc::AllocError;

/// What every form of a page names.
#[derive(Clone, Copy)]
pub struct FormOf<'a> {
    /// The token of the user.
    pub token: &'a str,
    /// The number of the page, which no other page has: so the forms of two pages differ.
    pub page: u64,
    /// The host, as the status page spells it.
    pub host: &'a [u8],
    /// The service; empty for a host.
    pub service: &'a [u8],
}

#[tactic(auto, unfolding(crate::specs::Forms::open_form))]
fn open_form(html: &mut Html, of: FormOf<'_>, action: &'static str) -> Result<(), AllocError>
    ensures { OnOk result (html.new ≡ html.old ++ html_bytes (open_form of.entry action.now)) }
{
    put(
        html,
        &[
            Part::Markup(
                "<form method=\"post\" action=\"/command\"><input type=\"hidden\" name=\"token\" value=\"",
            ),
            Part::Text(of.token.as_bytes()),
            Part::Markup("\"><input type=\"hidden\" name=\"page\" value=\""),
            Part::Number(of.page),
            Part::Markup("\"><input type=\"hidden\" name=\"host\" value=\""),
            Part::Text(of.host),
            Part::Markup("\"><input type=\"hidden\" name=\"service\" value=\""),
            Part::Text(of.service),
            Part::Markup("\"><input type=\"hidden\" name=\"action\" value=\""),
            Part::Markup(action),
            Part::Markup("\">"),
        ],
    )
}

/// Appends a form of an action, whose own fields and button are this markup. The only error is out of
/// memory.
pub(crate) fn put_form(
    html: &mut Html,
    of: FormOf<'_>,
    action: &'static str,
    fields: &'static str,
) -> Result<(), AllocError>
    ensures { OnOk result (html.new ≡ html.old ++ html_bytes (form of.entry action.now fields.now)) }
{
    open_form(html, of, action)?;
    put(html, &[Part::Markup(fields)])
}

#[tactic(auto, unfolding(crate::specs::Forms::entry_fields))]
fn put_entry_fields(
    html: &mut Html,
    gateway: &str,
    id: u32,
    button: &'static str,
) -> Result<(), AllocError>
    ensures { OnOk result (html.new ≡ html.old
        ++ html_bytes (entry_fields gateway.now id button.now)) }
{
    put(
        html,
        &[
            Part::Markup("<input type=\"hidden\" name=\"gateway\" value=\""),
            Part::Text(gateway.as_bytes()),
            Part::Markup("\"><input type=\"hidden\" name=\"id\" value=\""),
            Part::Number(u64::from(id)),
            Part::Markup("\"><button>"),
            Part::Markup(button),
            Part::Markup("</button></form></li>\n"),
        ],
    )
}

/// Appends a form that deletes an entry of a gateway. The only error is out of memory.
pub(crate) fn put_entry_form(
    html: &mut Html,
    of: FormOf<'_>,
    action: &'static str,
    gateway: &str,
    id: u32,
    button: &'static str,
) -> Result<(), AllocError>
    ensures { OnOk result (html.new ≡ html.old
        ++ html_bytes (entry_form of.entry action.now gateway.now id button.now)) }
{
    open_form(html, of, action)?;
    put_entry_fields(html, gateway, id, button)
}
