use gate_turns::{
    Page, Role, Stage, Standing, first_ready, gives_way, is_late, is_over, kept, limit_of,
    longest_owing, longest_parting, silence_of, slowest, time_left,
};

// For how long the agents of these tests may be silent, in milliseconds.
const SILENCE: u64 = 60_000;

fn agent(is_ready: bool, since: u64, order: u64, address: u128) -> Option<Standing> {
    Some(Standing {
        role: Role::Agent,
        stage: Stage::Open,
        is_ready,
        since,
        order,
        address,
        page: Page {
            text: 0,
            bytes: 0,
            taken: 0,
        },
    })
}

// One agent of an address of its own, and four of another, of whom two can be served.
fn agents() -> [Option<Standing>; 6] {
    [
        agent(false, 500, 0, 1),
        agent(true, 900, 8, 2),
        None,
        agent(true, 950, 7, 2),
        agent(false, 100, 0, 2),
        agent(false, 200, 0, 2),
    ]
}

fn are_served_in_order() -> bool {
    first_ready(&agents(), None) == Some(3) && first_ready(&agents(), Some(3)) == Some(1)
}

#[test]
fn who_became_ready_first_is_served_next(rt: HostRuntime) {
    assert!(rt; are_served_in_order());
}

fn give_way_in_order() -> bool {
    gives_way(&agents(), None) == Some(4)
        && longest_owing(&agents(), None, false, SILENCE) == Some(4)
        && longest_owing(&agents(), Some(4), false, SILENCE) == Some(5)
}

#[test]
fn who_was_silent_for_the_longest_time_gives_way(rt: HostRuntime) {
    assert!(rt; give_way_in_order());
}

fn is_late_after_a_minute() -> bool {
    let Some(standing) = agent(false, 100, 0, 1) else {
        return false;
    };
    limit_of(&standing, SILENCE, false) == Some(60_000)
        && !is_late(&standing, 60_099, SILENCE, false)
        && is_late(&standing, 60_100, SILENCE, false)
        && time_left(&agents(), 1_000, SILENCE, false) == Some(59_100)
        && time_left(&agents(), 1_000, SILENCE, true) == Some(1_100)
}

#[test]
fn an_agent_is_late_after_its_silence(rt: HostRuntime) {
    assert!(rt; is_late_after_a_minute());
}

fn are_silences() -> bool {
    silence_of(30) == 60_000 && silence_of(0) == 900_000 && silence_of(900) == 900_000
}

#[test]
fn an_agent_may_be_silent_for_the_greatest_age(rt: HostRuntime) {
    assert!(rt; are_silences());
}

fn are_pieces_over() -> bool {
    is_over(Role::Agent, 65_536, true)
        && !is_over(Role::Agent, 65_535, true)
        && is_over(Role::Operator, 1, true)
        && !is_over(Role::Operator, 1, false)
}

#[test]
fn a_piece_ends_where_others_wait(rt: HostRuntime) {
    assert!(rt; are_pieces_over());
}

fn reader(stage: Stage, since: u64, text: u64, bytes: u64, taken: u64) -> Option<Standing> {
    Some(Standing {
        role: Role::Reader,
        stage,
        is_ready: false,
        since,
        order: 0,
        address: 1,
        page: Page { text, bytes, taken },
    })
}

// Two readers share a text of 30 MB, of which the second took 20 MB and the third nothing; the fifth takes
// another one, and two have all.
fn readers() -> [Option<Standing>; 6] {
    [
        reader(Stage::Parting, 900, 0, 0, 0),
        reader(Stage::Last, 0, 1, 30_000_000, 20_000_000),
        reader(Stage::Last, 500, 1, 30_000_000, 0),
        None,
        reader(Stage::Last, 0, 2, 7, 6),
        reader(Stage::Parting, 800, 1, 30_000_000, 30_000_000),
    ]
}

fn give_way_where_they_are_slow() -> bool {
    slowest(&readers(), 10_000) == Some(4)
        && slowest(&readers(), 0).is_none()
        && longest_parting(&readers()) == Some(5)
}

#[test]
fn the_slowest_reader_gives_way(rt: HostRuntime) {
    assert!(rt; give_way_where_they_are_slow());
}

fn is_kept_once() -> bool {
    kept(&readers()) == 30_000_007
}

#[test]
fn a_text_of_two_readers_is_kept_once(rt: HostRuntime) {
    assert!(rt; is_kept_once());
}

fn has_a_second_for_each_megabyte() -> bool {
    let (Some(large), Some(small)) = (
        reader(Stage::Last, 0, 1, 30_000_000, 0),
        reader(Stage::Last, 0, 1, 7, 0),
    ) else {
        return false;
    };
    limit_of(&large, SILENCE, false) == Some(30_000)
        && limit_of(&small, SILENCE, false) == Some(10_000)
}

#[test]
fn a_reader_of_a_large_page_has_more_time(rt: HostRuntime) {
    assert!(rt; has_a_second_for_each_megabyte());
}
