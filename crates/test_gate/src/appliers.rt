ghost use Rattle.std.specs.Prelude.{◌≡◌, []};

use crate::parts::{Answer, answer_of, applier, one_client};
use gate_boards::{ApplierStop, run_applier};
use gate_environment::{FixedClock, NoHold};
use gate_grammar::read_line;
use gate_model::Moment;
use gate_pages::{Board, status_page};
use gate_queue::{Client, Gate, Taker};
use std::alloc::Global;
use std::sync::{Mutex, Wait};
use std::time::Clock;

const FIRST: &str = "[1] PROCESS_HOST_CHECK_RESULT;web1;0;first";

const SECOND: &str = "[1] PROCESS_HOST_CHECK_RESULT;web1;0;second";

const LAST_PAGE: &[u8] = b"status 1000\n\
object;web1;;UP;1000;fresh;-;0;second\n\
object;web1;HTTP;PENDING;-;fresh;-;0;\n";

// Queues the command of this line.
fn queued<R: Wait>(rt: &R, alloc: Global, gate: &Gate, client: &mut Client, line: &str) -> Answer
    requires { client.old.gate ≡ gate.now }
    ensures { client.new.gate ≡ gate.now }
{
    match read_line(alloc, line.as_bytes()) {
        Ok(command) => answer_of(client.submit(rt, gate, command.body)),
        Err(_) => Answer::Full(0),
    }
}

// Applies what is queued to a log for two: whether the page shows both.
fn shows_both<R: Wait + Clock>(rt: &R, alloc: Global, gate: &Gate, taker: Taker) -> bool
    requires { (taker.gate ≡ gate.now) × (taker.taken ≡ []) }
{
    let Some(applier) = applier(alloc, 2) else {
        drop(taker);
        return false;
    };
    let Ok(board) = Board::of(alloc, &applier) else {
        drop(taker);
        drop(applier);
        return false;
    };
    let board = Mutex::new(board);
    let (taker, applier, stop) = run_applier(
        rt,
        alloc,
        gate,
        taker,
        applier,
        &mut FixedClock(Moment(1000)),
        &mut NoHold,
        &board,
    );
    drop(taker);
    drop(applier);
    let page = status_page(alloc, &board.lock(rt));
    drop(board);
    matches!(stop, ApplierStop::LogFull(_)) && page.is_ok_and(|page| page.as_slice() == LAST_PAGE)
}

// Queues three results and applies them to a log for two: whether the page shows both.
fn shows_both_of_three<R: Wait + Clock>(rt: &R, alloc: Global) -> bool {
    let Some((gate, taker, mut client)) = one_client(alloc, 16) else {
        return false;
    };
    let first = queued(rt, alloc, &gate, &mut client, FIRST);
    let second = queued(rt, alloc, &gate, &mut client, SECOND);
    let third = queued(rt, alloc, &gate, &mut client, FIRST);
    drop(client);
    let shows_both = shows_both(rt, alloc, &gate, taker);
    drop(gate);
    first == Answer::Queued(1)
        && second == Answer::Queued(2)
        && third == Answer::Queued(3)
        && shows_both
}

#[test]
fn the_page_shows_all_of_a_full_log(rt: HostRuntime) {
    assert!(rt; shows_both_of_three(&rt, rt.alloc()));
}
