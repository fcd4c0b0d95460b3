use gate_replay::{replay_over_world, replay_script, run_replay};
use gate_streams::Sink;
use std::alloc::Global;
use std::io;
use std::io::{Error, ErrorKind, Read};
use std::sync::Wait;

const SCRIPT: &[u8] = b"open;1000;9;4;1\npacket;1000;0;web1;;a\npacket;1;0;web1;;b\n";

const PRINTED: &[u8] = b"queued 1\nStale\nlog 1\n\
[1000] 1:1 PROCESS_HOST_CHECK_RESULT;web1;0;a -> NoSuchHost\n";

/// A script whose second packet finds the log full.
const FULL_LOG: &[u8] = b"open;0;0;1;1\npacket;0;0;a;;\npacket;0;0;a;;\n";

/// A reader of so many line ends, which then ends, or fails with this kind of error.
#[derive(Drop)]
struct LineEnds {
    left: u64,
    fails: Option<ErrorKind>,
}

impl Read for LineEnds {
    fn read(&mut self, buf: &mut [u8]) -> io::Result<usize> {
        if self.left == 0
            && let Some(kind) = self.fails
        {
            return Err(Error::from(kind));
        }
        let count = buf.len().min(self.left as usize);
        for byte in &mut buf[..count] {
            *byte = b'\n';
        }
        self.left -= count as u64;
        Ok(count)
    }
}

/// A reader that is interrupted once, and then reads its text.
#[derive(Drop)]
struct Interrupted<'a> {
    pending: bool,
    text: &'a [u8],
}

impl Read for Interrupted<'_> {
    fn read(&mut self, buf: &mut [u8]) -> io::Result<usize> {
        if self.pending {
            self.pending = false;
            return Err(Error::from(ErrorKind::Interrupted));
        }
        self.text.read(buf)
    }
}

/// A writer that fails once, after so many bytes, and takes all that is written later.
#[derive(Drop)]
struct FailsOnce {
    left: usize,
    failed: bool,
    kind: ErrorKind,
    taken: Vec<u8>,
}

impl Sink for FailsOnce {
    fn put(&mut self, bytes: &[u8]) -> io::Result<()> {
        if self.failed || bytes.len() <= self.left {
            self.left = self.left.saturating_sub(bytes.len());
            return Ok(self.taken.extend_from_slice(bytes)?);
        }
        self.failed = true;
        self.taken.extend_from_slice(&bytes[..self.left])?;
        Err(Error::from(self.kind))
    }

    fn deliver(&mut self) -> io::Result<()> {
        Ok(())
    }
}

/// A writer that takes all, and fails when it is flushed.
#[derive(Drop)]
struct FailsToFlush;

impl Sink for FailsToFlush {
    fn put(&mut self, _bytes: &[u8]) -> io::Result<()> {
        Ok(())
    }

    fn deliver(&mut self) -> io::Result<()> {
        Err(Error::from(ErrorKind::StorageFull))
    }
}

/// Whether the replay of this input ends so.
fn ends<R: Wait, I: Read>(
    rt: &R,
    alloc: Global,
    input: &mut I,
    status: u8,
    printed: &[u8],
    reported: &[u8],
) -> bool {
    let mut output = Vec::new(alloc);
    let mut errors = Vec::new(alloc);
    run_replay(rt, alloc, input, &mut output, &mut errors) == status
        && output.as_slice() == printed
        && errors.as_slice() == reported
}

/// Whether the replay of the script to this output ends so.
fn ends_to<R: Wait, W: Sink>(
    rt: &R,
    alloc: Global,
    output: &mut W,
    status: u8,
    reported: &[u8],
) -> bool {
    let mut input = SCRIPT;
    let mut errors = Vec::new(alloc);
    run_replay(rt, alloc, &mut input, output, &mut errors) == status
        && errors.as_slice() == reported
}

/// Whether nothing is written after the one write that fails, at this offset of the output.
fn stops_at<R: Wait>(
    rt: &R,
    alloc: Global,
    offset: usize,
    kind: ErrorKind,
    reported: &[u8],
) -> bool {
    let mut output = FailsOnce {
        left: offset,
        failed: false,
        kind,
        taken: Vec::new(alloc),
    };
    ends_to(rt, alloc, &mut output, 3, reported)
        && output.taken.len() == offset
        && PRINTED.starts_with(&output.taken)
}

/// A script with a stale packet, a faulty line, a page and two closes.
const EACH_ANSWER: &[u8] = b"object;60;web1\nopen;1000;9;1;2\n\
packet;1000;0;web1;;up\npacket;1;0;web1;;late\nline;[1000] NO_SUCH_NAME\nclock;1010\n\
line;[1000] DEL_HOST_COMMENT;7\npage\nline;[1] SHUTDOWN_PROGRAM\npacket;1010;0;web1;;up\n\
line;[1] SHUTDOWN_PROGRAM\n";

fn is_same_over_a_world<R: Wait>(rt: &R, alloc: Global, script: &[u8]) -> bool {
    let (mut input, mut again) = (script, script);
    let mut over_gate = Vec::new(alloc);
    let mut over_world = Vec::new(alloc);
    let ended = replay_script(rt, alloc, &mut input, &mut over_gate);
    replay_over_world(alloc, &mut again, &mut over_world) == ended && over_world == over_gate
}

#[test]
fn a_gate_and_a_world_print_the_same(rt: HostRuntime) {
    for script in [SCRIPT, EACH_ANSWER, FULL_LOG] {
        assert!(&rt; is_same_over_a_world(&rt, rt.alloc(), script));
    }
}

#[test]
fn an_interrupted_read_is_made_again(rt: HostRuntime) {
    let mut input = Interrupted {
        pending: true,
        text: SCRIPT,
    };
    assert!(rt; ends(&rt, rt.alloc(), &mut input, 0, PRINTED, b""));
}

#[rattlefmt::skip]
static LENGTHS: [(u64, Option<ErrorKind>, u8, &[u8]); 6] = [
    // left    fails                          status  reported
    (1_048_576, None,                         2, b"nscagate: script line 1\n"),
    (1_048_577, None,                         2, b"nscagate: script too long\n"),
    (1_048_577, Some(ErrorKind::Other),       2, b"nscagate: script too long\n"),
    (1_048_576, Some(ErrorKind::Other),       3, b"nscagate: ReadFault\n"),
    (0,         Some(ErrorKind::BrokenPipe),  3, b"nscagate: ReadFault\n"),
    (9,         Some(ErrorKind::OutOfMemory), 3, b"nscagate: OutOfMemory\n"),
];

#[test]
fn a_long_or_unreadable_input_is_reported_by_its_cause(rt: HostRuntime) {
    for (left, fails, status, reported) in LENGTHS.iter() {
        let mut input = LineEnds {
            left: *left,
            fails: *fails,
        };
        assert!(&rt;
            ends(&rt, rt.alloc(), &mut input, *status, b"", reported),
            "{left}"
        );
    }
}

#[test]
fn a_failed_flush_is_a_failed_output(rt: HostRuntime) {
    assert!(rt;
        ends_to(
            &rt,
            rt.alloc(),
            &mut FailsToFlush,
            3,
            b"nscagate: WriteFault\n"
        )
    );
}

#[test]
fn nothing_is_written_after_a_failed_write(rt: HostRuntime) {
    let (broken, starved) = (ErrorKind::BrokenPipe, ErrorKind::OutOfMemory);
    for offset in 0..PRINTED.len() {
        assert!(&rt;
            stops_at(&rt, rt.alloc(), offset, broken, b"nscagate: WriteFault\n"),
            "{offset}"
        );
        assert!(&rt;
            stops_at(&rt, rt.alloc(), offset, starved, b"nscagate: OutOfMemory\n"),
            "{offset}"
        );
    }
}
