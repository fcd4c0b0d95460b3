//! A client and an operator with their gate at hand, used through the traits.
use crate::parts::{Answer, answer_of, body, two_clients};
use gate_core::{Operator, Submit};
use gate_model::Moment;
use gate_queue::{CloseFault, GateClient, GateOperator};
use std::alloc::Global;
use std::sync::Wait;

// Whether a client is answered so to a body, and then finds this close, with its number and as many
// queued items.
fn is_answered(
    client: &mut impl Submit,
    answer: Answer,
    found: Option<Moment>,
    number_and_count: (u32, u64),
) -> bool {
    answer_of(client.submit(body(5))) == answer
        && client.look() == found
        && (client.number(), client.count()) == number_and_count
}

// Whether a client is answered as it has to be before and after an operator of its gate closes it,
// and the operator after it.
fn follow_the_close(client: &mut impl Submit, operator: &mut impl Operator) -> bool {
    let first = Moment(1500);
    is_answered(client, Answer::Queued(1), None, (1, 1))
        && operator.close(first) == Ok(first)
        && operator.close(Moment(1600)) == Err(CloseFault::AlreadyClosing(first))
        && is_answered(client, Answer::Closing(1500, 5), Some(first), (1, 1))
        && is_answered(operator, Answer::Closing(1500, 5), Some(first), (2, 0))
}

fn are_used_through_the_traits<R: Wait>(rt: &R, alloc: Global) -> bool {
    match two_clients(alloc, 9, 9) {
        Some((gate, taker, closer, one, two)) => {
            drop(taker);
            let mut client = GateClient::new(rt, &gate, one);
            let mut operator = GateOperator::new(rt, alloc, &gate, two, closer);
            let follow = follow_the_close(&mut client, &mut operator);
            let one = client.into_parts();
            let (two, closer) = operator.into_parts();
            let numbers = (one.number(), two.number());
            drop(one);
            drop(two);
            drop(closer);
            follow && numbers == (1, 2)
        }
        None => false,
    }
}

#[test]
fn a_client_and_an_operator_use_their_gate_through_the_traits(rt: HostRuntime) {
    assert!(rt; are_used_through_the_traits(&rt, rt.alloc()));
}
