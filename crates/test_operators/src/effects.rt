use gate_grammar::{Command, read_line};
use gate_model::{Body, Moment, Outcome, Text};
use operator_effects::{ending_of, first_refusal, push_message};
use operator_lines::{AskFault, Reply, SendFault};
use operator_ports::{Done, Gateway, Next, watch};
use page_fetching::FetchFault;
use status_reading::read_status_page;
use std::alloc::{AllocError, Global};

static LINE: &str = "[1000] ACKNOWLEDGE_SVC_PROBLEM;web1;HTTP;2;1;0;ann;on it";

static BEFORE: &str = "status 1000\nobject;web1;;UP;900;fresh;-;0;\n\
    object;web1;HTTP;CRITICAL;900;fresh;-;0;timeout\ncomment;3;web1;HTTP;user;0;900;ann;seen\n";

// Bob has acknowledged it, and ann has only written a comment.
static COMMENTED: &str = "status 1001\nobject;web1;;UP;900;fresh;-;0;\n\
    object;web1;HTTP;CRITICAL;900;fresh;sticky;0;timeout\n\
    comment;3;web1;HTTP;user;0;900;ann;seen\ncomment;4;web1;HTTP;user;0;1001;ann;on it\n\
    comment;5;web1;HTTP;ack;0;1001;bob;mine\n";

static AFTER: &str = "status 1002\nobject;web1;;UP;900;fresh;-;0;\n\
    object;web1;HTTP;CRITICAL;900;fresh;sticky;0;timeout\n\
    comment;3;web1;HTTP;user;0;900;ann;seen\ncomment;5;web1;HTTP;ack;0;1001;bob;mine\n\
    comment;6;web1;HTTP;ack;0;1002;ann;on it\n";

/// A gateway that shows the pages of these texts, one after another, and takes no command.
#[derive(Drop)]
struct Texts<'a> {
    texts: &'a [&'a str],
    next: usize,
    done: Done,
}

impl<'a> Texts<'a> {
    fn new(alloc: Global, texts: &'a [&'a str]) -> Texts<'a> {
        Texts {
            texts,
            next: 0,
            done: Done::new(alloc),
        }
    }
}

impl<'a> Gateway for Texts<'a> {
    ghost done = { λ texts. texts.done };

    fn page(&mut self, _alloc: Global) -> Result<Vec<u8>, FetchFault> {
        Err(FetchFault::Unreachable)
    }

    fn send(&mut self, _alloc: Global, _command: &Command) -> Result<Reply, AskFault> {
        Err(AskFault::Unsent(SendFault::OutOfMemory))
    }

    fn next(&mut self, alloc: Global) -> Result<Next, AllocError> {
        let next = match self.texts.get(self.next) {
            Some(text) => Next::Page(Vec::from_slice(alloc, text.as_bytes())?),
            None => Next::Over,
        };
        self.next = self.next.saturating_add(1);
        self.done.read(&next)?;
        Ok(next)
    }
}

#[test]
fn a_command_is_watched_until_it_is_shown(rt: HostRuntime) {
    let alloc = rt.alloc();
    let before = read_status_page(alloc, BEFORE.as_bytes()).expect(&rt, "a page");
    let command = read_line(alloc, LINE.as_bytes()).expect(&rt, "a command");
    let body = &command.body;
    let texts = [BEFORE, "cut", COMMENTED, AFTER];
    let mut gateway = Texts::new(alloc, &texts);
    let seen = watch(alloc, &before, body, &mut gateway).expect(&rt, "memory");
    let shown = ending_of(body, Reply::Queued(7), seen);
    let mut line = Vec::new(alloc);
    push_message(&mut line, body, shown).expect(&rt, "memory");
    let text = "acknowledged: web1 HTTP (CRITICAL), sticky, comment 6";
    assert!(rt; line.as_slice() == text.as_bytes());
    assert_eq!(rt; shown.status(), 0);
    let texts = [BEFORE];
    let mut gateway = Texts::new(alloc, &texts);
    let seen = watch(alloc, &before, body, &mut gateway).expect(&rt, "memory");
    assert_eq!(rt; ending_of(body, Reply::Queued(8), seen).status(), 1);
    drop(command);
    drop(before);
}

#[test]
fn a_service_without_a_name_is_foreseen_to_be_refused(rt: HostRuntime) {
    let alloc = rt.alloc();
    let before = read_status_page(alloc, BEFORE.as_bytes()).expect(&rt, "a page");
    let acknowledged = read_line(alloc, LINE.as_bytes()).expect(&rt, "a command");
    let nameless = Command {
        entered: Moment(1000),
        body: Body::RemoveAck {
            host: Text::copied(alloc, b"web1").expect(&rt, "memory"),
            service: Some(Text::new(Vec::new(alloc))),
        },
    };
    let commands = [acknowledged, nameless];
    let refusal = first_refusal(alloc, &before, &commands).expect(&rt, "memory");
    assert!(rt; matches!(refusal, Some((_, Outcome::NoSuchService))));
    drop(commands);
    drop(before);
}
