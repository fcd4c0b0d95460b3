ghost use Rattle.std.specs.Prelude.{◌≡◌, ◌<◌, ◌≤◌, ◌+◌, ◌++◌, [], ◌∷◌, None, Some, length, vec_len, vec_capacity, option_to_list, slice_index_or, slice_set, IfSome, IfOk, replicate};
ghost use Rattle.gate_downtime.specs.declared.links.Link.{Link};
ghost use Rattle.gate_downtime.specs.inner.Links.{with_child, lone_link, child_link, waiting_link, IsLinkedMore};
ghost use Rattle.gate_downtime.specs.inner.Sizes.{HasSpace, OneMore, SameSize};

use crate::row::push_within;
use std::alloc::{AllocError, Global};

/// The lists in which a row stands, each with the newest row first.
#[derive(Clone, Copy)]
pub struct Link {
    /// The newest row that this one triggers.
    pub child: Option<usize>,
    /// The next older row of the same trigger.
    pub sibling: Option<usize>,
    /// The next older row of the object that waits for a transition.
    pub waiting: Option<usize>,
}

/// No list of waiting rows, for each of that many objects.
pub fn no_heads(alloc: Global, count: usize) -> Result<Vec<Option<usize>>, AllocError>
    ensures items { IfOk result (λ heads. heads.items ≡ replicate count None) }
    ensures len { IfOk result (λ heads. vec_len heads ≡ count) }
{
    vec![in alloc; None; count]
}

pub fn push_pending(pending: &mut Vec<usize>, next: Option<usize>)
    requires { HasSpace pending.old }
    ensures items { pending.new.items ≡ pending.old.items ++ option_to_list next }
    ensures len { vec_len pending.new ≤ vec_len pending.old + 1 }
    ensures capacity { vec_capacity pending.old ≤ vec_capacity pending.new }
{
    if let Some(row) = next {
        push_within(pending, row);
    }
}

pub fn link_at(links: &[Link], at: usize) -> Link
    requires { at < length links.now }
    ensures { (d : Link) → result ≡ slice_index_or links.now at d }
{
    links[at]
}

pub fn write_link(links: &mut Vec<Link>, at: usize, link: Link)
    requires { at < length links.old.items }
    ensures items { links.new.items ≡ slice_set links.old.items at link }
    ensures size { SameSize links.old links.new }
{
    links[at] = link;
}

/// The links of a new row that neither has a trigger nor waits for a transition.
pub fn link_alone(links: &mut Vec<Link>)
    requires { HasSpace links.old }
    ensures items { links.new.items ≡ links.old.items ++ lone_link ∷ [] }
    ensures size { OneMore links.old links.new }
{
    push_within(
        links,
        Link {
            child: None,
            sibling: None,
            waiting: None,
        },
    );
}

/// The links of a new row whose trigger is the row at this index.
pub fn link_triggered(links: &mut Vec<Link>, trigger: usize)
    requires room { HasSpace links.old }
    requires within { trigger < length links.old.items }
    ensures items { (d : Link)
        → links.new.items ≡ slice_set links.old.items trigger
        (with_child (length links.old.items) (slice_index_or links.old.items trigger d))
        ++ child_link (slice_index_or links.old.items trigger d).child ∷ [] }
    ensures size { OneMore links.old links.new }
{
    let new = links.len();
    let old = links[trigger];
    links[trigger] = Link {
        child: Some(new),
        sibling: old.sibling,
        waiting: old.waiting,
    };
    push_within(
        links,
        Link {
            child: None,
            sibling: old.child,
            waiting: None,
        },
    );
}

/// The links of a new row of the object at this place that waits for a transition.
pub fn link_waiting(links: &mut Vec<Link>, heads: &mut Vec<Option<usize>>, place: usize)
    requires room { HasSpace links.old }
    requires within { place < length heads.old.items }
    ensures items { links.new.items ≡ links.old.items
        ++ waiting_link (slice_index_or heads.old.items place None) ∷ [] }
    ensures heads { heads.new.items
        ≡ slice_set heads.old.items place (Some (length links.old.items)) }
    ensures heads_len { vec_len heads.new ≡ vec_len heads.old }
    ensures size { OneMore links.old links.new }
{
    let new = links.len();
    let waiting = heads[place];
    heads[place] = Some(new);
    push_within(
        links,
        Link {
            child: None,
            sibling: None,
            waiting,
        },
    );
}

/// The links of a new row of the object at this place.
pub fn link_row(
    links: &mut Vec<Link>,
    heads: &mut Vec<Option<usize>>,
    trigger: Option<usize>,
    fixed: bool,
    place: usize,
)
    requires room { HasSpace links.old }
    requires trigger { IfSome trigger (λ at. at < length links.old.items) }
    requires place { place < length heads.old.items }
    ensures linked { IsLinkedMore links.old.items heads.old.items trigger fixed place
        links.new.items heads.new.items }
    ensures heads_len { vec_len heads.new ≡ vec_len heads.old }
    ensures size { OneMore links.old links.new }
{
    match trigger {
        Some(at) => link_triggered(links, at),
        None => {
            if fixed {
                link_alone(links)
            } else {
                link_waiting(links, heads, place)
            }
        }
    }
}
