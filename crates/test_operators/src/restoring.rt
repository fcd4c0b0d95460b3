use gate_grammar::read_line;
use gate_kept::{read_kept, write_kept};
use gate_model::Moment;
use operator_lines::sent_lines;
use operator_ports::entered_at;
use operator_restore::{is_whole, kept_gateway, kept_table, log_part, look_ahead_by_page};
use page_return::find_missing;
use restore_plan::{commands_of, page_of, plan_of, plan_of_page, rehearse};
use status_reading::read_status_page;

static FRESH: &str = "status 800\nobject;web1;;PENDING;-;fresh;-;0;\n";

// What two runs printed, one after the other. By 1200 the first entry is over, and the third, which
// waits for the second, can't begin any more.
static PRINTED: &str = "agents 127.0.0.1:5667\nlog 1\n\
    [100] 2:1 DEL_HOST_COMMENT;9 -> NoSuchComment\n\
    agents 127.0.0.1:5667\nlog 10\n\
    [1000] 1:1 PROCESS_HOST_CHECK_RESULT;web1;0;up -> Accepted\n\
    [1001] 1:2 PROCESS_HOST_CHECK_RESULT;web1;1;do\\x07wn -> Accepted\n\
    [1002] 2:1 ADD_HOST_COMMENT;web1;0;ann;seen -> Accepted\n\
    [1002] 2:2 DEL_HOST_COMMENT;9 -> NoSuchComment\n\
    [1003] 2:3 ACKNOWLEDGE_HOST_PROBLEM;web1;2;0;0;ann;on it -> Accepted\n\
    [1004] 2:4 SCHEDULE_HOST_DOWNTIME;web1;1000;1100;0;0;50;ann;over -> Accepted\n\
    [1005] 2:5 SCHEDULE_HOST_DOWNTIME;web1;1500;2500;1;0;0;ann;first -> Accepted\n\
    [1006] 2:6 SCHEDULE_HOST_DOWNTIME;web1;1000;1050;0;2;100;ann;too late -> Accepted\n\
    [1007] 2:7 SCHEDULE_HOST_DOWNTIME;web1;1600;2500;1;2;0;ann;second -> Accepted\n\
    [1008] 2:8 SCHEDULE_HOST_DOWNTIME;web1;1700;2500;1;4;0;ann;third -> Accepted\n";

const NOW: Moment = Moment(1200);

// What the gateway of that log shows then.
static KEPT: &str = "status 1200\nobject;web1;;DOWN;1001;fresh;sticky;0;do\\x07wn\n\
    comment;1;web1;;user;0;1002;ann;seen\ncomment;2;web1;;ack;0;1003;ann;on it\n\
    comment;4;web1;;downtime;0;1005;ann;first\ncomment;5;web1;;downtime;0;1006;ann;too late\n\
    comment;6;web1;;downtime;0;1007;ann;second\ncomment;7;web1;;downtime;0;1008;ann;third\n\
    downtime;2;web1;;fixed;0;1500;2500;0;-;ann;first\n\
    downtime;3;web1;;flexible;2;1000;1050;100;-;ann;too late\n\
    downtime;4;web1;;fixed;2;1600;2500;0;-;ann;second\n\
    downtime;5;web1;;fixed;4;1700;2500;0;-;ann;third\n";

// What is sent of it: each trigger has its new id, and what is left out has none.
static SENT: &str = "[1200] PROCESS_HOST_CHECK_RESULT;web1;1;do\x07wn\n\
    [1200] ADD_HOST_COMMENT;web1;0;ann;seen\n\
    [1200] ACKNOWLEDGE_HOST_PROBLEM;web1;2;0;0;ann;on it\n\
    [1200] SCHEDULE_HOST_DOWNTIME;web1;1500;2500;1;0;0;ann;first\n\
    [1200] SCHEDULE_HOST_DOWNTIME;web1;1600;2500;1;1;0;ann;second\n\
    [1200] SCHEDULE_HOST_DOWNTIME;web1;1700;2500;1;2;0;ann;third\n";

// What a fresh gateway shows once it has applied that.
static AGAIN: &str = "status 1200\nobject;web1;;DOWN;1200;fresh;sticky;0;do\\x07wn\n\
    comment;1;web1;;user;0;1200;ann;seen\ncomment;2;web1;;ack;0;1200;ann;on it\n\
    comment;3;web1;;downtime;0;1200;ann;first\ncomment;4;web1;;downtime;0;1200;ann;second\n\
    comment;5;web1;;downtime;0;1200;ann;third\n\
    downtime;1;web1;;fixed;0;1500;2500;0;-;ann;first\n\
    downtime;2;web1;;fixed;1;1600;2500;0;-;ann;second\n\
    downtime;3;web1;;fixed;2;1700;2500;0;-;ann;third\n";

static RESULT: &str = "[1200] PROCESS_HOST_CHECK_RESULT;web1;1;down";

static COMMENT: &str = "[1200] ADD_HOST_COMMENT;web1;0;ann;hi";

static SHUTDOWN: &str = "[1200] SHUTDOWN_PROGRAM";

// A gateway with another result, and no command yet.
static NEWER: &str = "status 1300\nobject;web1;;UP;1250;fresh;-;0;up\n";

// What is named before the kept page is restored at 1300.
static NAMED: &str = "nscagatectl: restoring from a page that is 100 seconds old, without a log: \
    passive checks that were disabled are enabled\n\
    nscagatectl: not sent, since its window is over: \
    SCHEDULE_HOST_DOWNTIME;web1;1000;1050;0;2;100;ann;too late\n\
    nscagatectl: not to be shown again: comment;5;web1;;downtime;0;1006;ann;too late\n\
    nscagatectl: not to be shown again: downtime;3;web1;;flexible;2;1000;1050;100;-;ann;too late\n";

#[test]
fn what_stands_of_a_log_is_sent(rt: HostRuntime) {
    let alloc = rt.alloc();
    let fresh = read_status_page(alloc, FRESH.as_bytes()).expect(&rt, "a page");
    let log = log_part(PRINTED.as_bytes()).expect(&rt, "a log page");
    assert_eq!(rt; is_whole(alloc, log).ok(), Some(true));
    let kept = kept_gateway(alloc, &fresh, log, NOW).expect(&rt, "the log of a gateway");
    let shown = page_of(alloc, &kept).expect(&rt, "memory");
    assert!(rt; shown.as_slice() == KEPT.as_bytes());
    let table = kept_table(alloc, &fresh).expect(&rt, "the objects of a gateway");
    let plan = plan_of(alloc, &table, &kept, NOW).expect(&rt, "memory");
    let commands = commands_of(alloc, plan).expect(&rt, "memory");
    let again = rehearse(alloc, table, NOW, commands).expect(&rt, "commands that are accepted");
    assert!(rt; again.as_slice() == AGAIN.as_bytes());
    drop(kept);
    drop(fresh);
}

#[test]
fn what_a_page_shows_is_sent(rt: HostRuntime) {
    let alloc = rt.alloc();
    let kept = read_status_page(alloc, KEPT.as_bytes()).expect(&rt, "a page");
    let table = kept_table(alloc, &kept).expect(&rt, "the objects of a gateway");
    let plan = plan_of_page(alloc, &table, &kept, NOW, NOW).expect(&rt, "memory");
    let bodies = commands_of(alloc, plan).expect(&rt, "memory");
    let commands = entered_at(alloc, NOW, bodies).expect(&rt, "memory");
    let lines = sent_lines(alloc, commands.as_slice()).expect(&rt, "commands with a line");
    assert!(rt; lines.as_slice() == SENT.as_bytes());
    drop(commands);
    drop(table);
    drop(kept);
}

#[test]
fn a_page_is_restored_without_a_log(rt: HostRuntime) {
    let alloc = rt.alloc();
    let kept = read_status_page(alloc, KEPT.as_bytes()).expect(&rt, "a page");
    let table = kept_table(alloc, &kept).expect(&rt, "the objects of a gateway");
    let prospect = look_ahead_by_page(alloc, table, KEPT.as_bytes(), false, Moment(1300)).expect(
        &rt,
        "a page that is new",
    );
    assert!(rt; prospect.lines.as_slice() == NAMED.as_bytes());
    assert_eq!(rt; prospect.named, 3);
    drop(prospect);
    drop(kept);
}

#[test]
fn rows_are_missing(rt: HostRuntime) {
    let alloc = rt.alloc();
    let kept = read_status_page(alloc, KEPT.as_bytes()).expect(&rt, "a page");
    let newer = read_status_page(alloc, NEWER.as_bytes()).expect(&rt, "a page");
    let missing = find_missing(alloc, &kept, &newer).expect(&rt, "memory");
    assert!(rt; missing.objects.as_slice() == [0].as_slice());
    assert!(rt; missing.comments.as_slice() == [0, 1, 2, 3, 4, 5].as_slice());
    assert!(rt; missing.downtimes.as_slice() == [0, 1, 2, 3].as_slice());
    drop(missing);
    drop(newer);
    drop(kept);
}

#[test]
fn what_is_restored_is_written_and_read_again(rt: HostRuntime) {
    let alloc = rt.alloc();
    let result = read_line(alloc, RESULT.as_bytes()).expect(&rt, "a command");
    let comment = read_line(alloc, COMMENT.as_bytes()).expect(&rt, "a command");
    let shutdown = read_line(alloc, SHUTDOWN.as_bytes()).expect(&rt, "a command");
    let commands = vec![in alloc; shutdown, comment, result].expect(&rt, "memory");
    let written = write_kept(alloc, commands.as_slice()).expect(&rt, "memory");
    assert_eq!(rt; written.left.len(), 1);
    let kept = read_kept(alloc, written.text.as_slice()).expect(&rt, "memory");
    assert_eq!(rt; kept.packets.len(), 4304);
    assert!(rt; kept.lines.as_slice() == b"[1200] ADD_HOST_COMMENT;web1;0;ann;hi\n".as_slice());
    assert!(rt; kept.faults.is_empty());
    drop(kept);
    drop(written);
    drop(commands);
}
