//! What the page of an object says of a user's orders.

ghost use Rattle.std.specs.Prelude.{◌≡◌, ◌++◌, map, IfOk, OnOk};
ghost use Rattle.statusdesk.specs.Objects.{place_of};
ghost use Rattle.statusdesk.specs.Notes.{said_at, kept_at, fetched_at, AreOwn, said_view, note_of, note_view, are_settled};

use crate::posts::Post;
use desk_outbox::{Asked, Shown};
use desk_view::Note;
use gate_model::Text;
use page_watching::Seen;
use std::alloc::{AllocError, Global};
use std::sync::Wait;

/// What is said of an order at a gateway.
#[derive(Drop)]
pub struct Said<'t> {
    pub gateway: &'t str,
    pub text: Text,
    /// Whether it stays so.
    pub is_settled: bool,
    /// Whether it failed.
    pub is_alarm: bool,
}

/// The notes that say this.
pub fn notes_of<'s>(alloc: Global, said: &'s [Said<'_>]) -> Result<Vec<Note<'s>>, AllocError>
    ensures { IfOk result (λ notes. map note_view notes.items ≡ map note_of (map said_view said.now)) }
{
    let mut notes = Vec::with_capacity(alloc, said.len())?;
    for one in said {
        notes.push(Note {
            gateway: one.gateway,
            text: one.text.bytes(),
            is_alarm: one.is_alarm,
        })?;
    }
    Ok(notes)
}

/// Whether all of this stays so.
pub fn are_settled(said: &[Said<'_>]) -> bool
    ensures { result ≡ are_settled (map said_view said.now) }
{
    for one in said {
        if !one.is_settled {
            return false;
        }
    }
    true
}

// When the page that is kept of a gateway was fetched; 0 where none is.
fn kept_at(seen: &Seen<'_>) -> u64
    ensures { result ≡ kept_at seen.now }
{
    match &seen.memory.last {
        Some(kept) => kept.moment,
        None => 0,
    }
}

// The same of the gateway of this name.
fn fetched_at(seen: &[Seen<'_>], name: &str) -> u64
    ensures { result ≡ fetched_at name.now seen.now }
{
    for one in seen {
        if one.place.name == name {
            return kept_at(one);
        }
    }
    0
}

// Appends what is said of orders at a gateway.
fn push_said<'t>(
    gateway: &'t str,
    shown: Vec<Shown>,
    said: &mut Vec<Said<'t>>,
) -> Result<(), AllocError>
    ensures { OnOk result (map said_view said.new.items ≡ map said_view said.old.items
        ++ map (said_at gateway.now) shown.items) }
{
    for one in shown {
        said.push(Said {
            gateway,
            text: one.text,
            is_settled: one.is_settled,
            is_alarm: one.is_alarm,
        })?;
    }
    Ok(())
}

/// What the outboxes of the gateways show of the orders that are asked for. The only error is out of
/// memory.
pub fn orders_said<'t, R: Wait>(
    rt: &R,
    alloc: Global,
    posts: &'t [Post<'_>],
    seen: &[Seen<'_>],
    asked: Asked<'_>,
) -> Result<Vec<Said<'t>>, AllocError>
    ensures { IfOk result (λ said. AreOwn asked.entry seen.now (map place_of posts.now)
        (map said_view said.items)) }
{
    let mut said = Vec::new(alloc);
    for post in posts {
        let asked = Asked {
            fetched: fetched_at(seen, post.place.name),
            ..asked
        };
        push_said(post.place.name, post.shown(rt, alloc, &asked)?, &mut said)?;
    }
    Ok(said)
}
