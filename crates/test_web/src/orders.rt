use crate::forms::form_of;
use desk_outbox::{Asked, Labelled, Outbox, Shown, labelled_order};
use desk_sending::{Order, audit_of, send_order};
use gate_model::Moment;
use operator_lines::Reply;
use status_reading::read_status_page;
use std::alloc::Global;
use std::test::*;

const PAGE: &[u8] = b"status 1000\nobject;web1;;UP;900;fresh;-;0;fine\n\
object;web1;a b\\\\c;CRITICAL;900;fresh;-;0;timeout\n";

const ONE: &str = "action=acknowledge&host=web1&service=a+b%5C%5Cc&text=on+it%3B+100%25&sticky=on";

const TWO: &str = "action=comment&host=web1&service=a+b%5C%5Cc&text=two";

const LINE: &[u8] = b"[1000] ACKNOWLEDGE_SVC_PROBLEM;web1;a b\\c;2;1;0;ann;on it; 100%\n";

// The line of the log of the first order, and what ann sees of both then.
const SHOWN: &str = "\
1000\tann\teast\t[1000] ACKNOWLEDGE_SVC_PROBLEM;web1;a b\\\\c;2;1;0;ann;on it; 100%\tqueued 3\n\
queued 3; this page may be from before it\n\
being sent\n";

// The order of a form by ann at the moment 1000.
fn order(alloc: Global, fields: &str) -> Option<Labelled> {
    let form = form_of(alloc, fields)?;
    let page = read_status_page(alloc, PAGE).ok()?;
    labelled_order(alloc, &page, Moment(1000), &form).ok()
}

fn take_in(alloc: Global, outbox: &mut Outbox, fields: &str) -> Option<()> {
    match outbox.take_in(order(alloc, fields)?) {
        Ok(_) => Some(()),
        Err(_) => None,
    }
}

// The line of the log of an order whose line is written.
fn sent(alloc: Global, order: &Order) -> Option<Vec<u8>> {
    let mut reader = b"queued 3\n".as_slice();
    let mut written = Vec::new(alloc);
    let answer = send_order(alloc, &mut reader, &mut written, order);
    if written.as_slice() != LINE {
        return None;
    }
    audit_of(alloc, b"ann", "east", order, answer).ok()
}

// The same of the order that waits for the longest time.
fn send_oldest(alloc: Global, outbox: &mut Outbox) -> Option<Vec<u8>> {
    let oldest = outbox.next(alloc).ok()??;
    let line = sent(alloc, oldest.order());
    match outbox.settle(alloc, oldest, Ok(Reply::Queued(3)), 1005) {
        Ok(()) => line,
        Err(_) => None,
    }
}

fn push_lines(text: &mut Vec<u8>, shown: &[Shown]) -> Option<()> {
    for one in shown {
        text.extend_from_slice(one.text.bytes()).ok()?;
        text.push(b'\n').ok()?;
    }
    Some(())
}

// Appends what ann sees of her orders for the service.
fn push_shown(alloc: Global, outbox: &Outbox, text: &mut Vec<u8>) -> Option<()> {
    let asked = Asked {
        user: b"ann",
        host: b"web1",
        service: b"a b\\\\c",
        is_each: false,
        at: Some(1000),
        clock: 1040,
        fetched: 1005,
    };
    let shown = outbox.shown_for(alloc, &asked).ok()?;
    push_lines(text, shown.as_slice())
}

fn sent_and_shown(alloc: Global, outbox: &mut Outbox) -> Option<Vec<u8>> {
    take_in(alloc, outbox, ONE)?;
    take_in(alloc, outbox, TWO)?;
    let mut text = send_oldest(alloc, outbox)?;
    match push_shown(alloc, outbox, &mut text) {
        Some(()) => Some(text),
        None => None,
    }
}

#[test]
fn orders_are_sent_in_their_order_and_shown_to_their_user(rt: HostRuntime) -> Result<(), Fail> {
    let mut outbox = Outbox::new(rt.alloc())?;
    let text = sent_and_shown(rt.alloc(), &mut outbox);
    drop(outbox);
    assert!(rt; text.is_some_and(|text| text.as_slice() == SHOWN.as_bytes()));
    Ok(())
}
