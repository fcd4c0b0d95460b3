//! Boards and the words of pages; `crates/show_records` writes the pages of a day.
use crate::parts::applier;
use gate_lines::{outcome_name, plan_name, state_name};
use gate_model::{Moment, Outcome, State};
use gate_pages::{Board, publish, status_page};
use std::alloc::Global;

fn board_at(alloc: Global, now: u32) -> Option<Board> {
    let mut applier = applier(alloc, 10)?;
    applier.advance(Moment(now));
    let board = Board::of(alloc, &applier).ok();
    drop(applier);
    board
}

fn published(alloc: Global) -> Option<Board> {
    let mut board = board_at(alloc, 1100)?;
    let Some(next) = board_at(alloc, 1000) else {
        drop(board);
        return None;
    };
    publish(&mut board, next.closing(Moment(1200)));
    Some(board)
}

const EMPTY: &[u8] = b"status 1000\n\
object;web1;;PENDING;-;fresh;-;0;\n\
object;web1;HTTP;PENDING;-;fresh;-;0;\n\
closing;1200\n";

fn is_shown(alloc: Global, board: &Board) -> bool {
    board.closes_at() == Some(Moment(1200))
        && status_page(alloc, board).is_ok_and(|page| page.as_slice() == EMPTY)
}

#[test]
fn a_published_board_is_the_next_one_and_a_closing_one_says_so(rt: HostRuntime) {
    let board = published(rt.alloc());
    let is_shown = match &board {
        Some(board) => is_shown(rt.alloc(), board),
        None => false,
    };
    drop(board);
    assert!(rt; is_shown);
}

#[test]
fn states_plans_and_outcomes_have_their_words(rt: HostRuntime) {
    assert!(rt; outcome_name(Outcome::WindowPast) == b"WindowPast".as_slice());
    assert!(rt; state_name(State::Unreachable) == "UNREACHABLE");
    assert!(rt; plan_name(false) == "flexible");
}
