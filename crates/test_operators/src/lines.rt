use gate_grammar::read_line;
use operator_lines::{AskFault, Reply, converse};
use std::io;
use std::io::{Error, ErrorKind, Read};

static ONE: &str = "[1000] REMOVE_HOST_ACKNOWLEDGEMENT;a";

static OTHER: &str = "[1000] REMOVE_HOST_ACKNOWLEDGEMENT;b";

static BOTH: &str = "[1000] REMOVE_HOST_ACKNOWLEDGEMENT;a\n[1000] REMOVE_HOST_ACKNOWLEDGEMENT;b\n";

/// A reader whose reads fail.
#[derive(Drop)]
struct Fails;

impl Read for Fails {
    fn read(&mut self, _: &mut [u8]) -> io::Result<usize> {
        Err(Error::from(ErrorKind::ConnectionReset))
    }
}

#[test]
fn each_command_has_its_answer(rt: HostRuntime) {
    let alloc = rt.alloc();
    let commands = [
        read_line(alloc, ONE.as_bytes()).expect(&rt, "a command"),
        read_line(alloc, OTHER.as_bytes()).expect(&rt, "a command"),
    ];
    let mut answers = "queued 7\nfull\n".as_bytes();
    let (mut written, mut replies) = (Vec::new(alloc), Vec::new(alloc));
    let ended = converse(alloc, &mut answers, &mut written, &commands, &mut replies);
    assert!(rt; ended.is_ok());
    assert!(rt; written.as_slice() == BOTH.as_bytes());
    assert!(rt; replies.as_slice() == [Reply::Queued(7), Reply::Full].as_slice());
    let ended = converse(alloc, &mut Fails, &mut written, &commands, &mut replies);
    assert_eq!(rt; ended.err(), Some(AskFault::ReadFault));
    drop(commands);
}
