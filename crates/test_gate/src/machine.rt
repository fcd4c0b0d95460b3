//! The queue, its clients and its close as one machine.
use crate::parts::body;
use gate_core::{Event, Reply, World, run};
use gate_model::{Moment, Numbered};
use std::alloc::Global;

fn replies(alloc: Global) -> Option<Vec<Reply>> {
    let events = vec![in alloc;
        Event::Look(1),
        Event::Push(1, body(5)),
        Event::Take,
        Event::Close(Moment(1500)),
        Event::Look(1),
    ]
    .ok()?;
    let world = World::open(alloc, 1, 1).ok()?;
    match run(alloc, world, events) {
        Ok((replies, _)) => Some(replies),
        Err(_) => None,
    }
}

fn are_right(replies: &[Reply]) -> bool {
    matches!(
        replies,
        [
            Reply::Open,
            Reply::Queued(1),
            Reply::Taken(Numbered {
                client: 1,
                number: 1,
                ..
            }),
            Reply::Begun,
            Reply::Closing(Moment(1500)),
        ]
    )
}

#[test]
fn each_event_of_a_run_has_its_reply(rt: HostRuntime) {
    let replies = replies(rt.alloc());
    let are_right = match &replies {
        Some(replies) => are_right(replies),
        None => false,
    };
    drop(replies);
    assert!(rt; are_right);
}
