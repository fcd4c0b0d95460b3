use html_text::Html;
use status_memory::{Fetch, Memory, Page};
use status_reading::{ShownAcknowledgement, ShownSource, State, StatusPage, read_status_page};
use std::test::Fail;

#[test]
fn texts_are_escaped(rt: HostRuntime) -> Result<(), Fail> {
    let mut html = Html::new(rt.alloc());
    html.markup("<b>")?;
    html.text(b"<a href=\"x\">&'\\\n\t\x1b\x7f")?;
    html.number(12)?;
    let wanted = b"<b>&lt;a href=&quot;x&quot;&gt;&amp;&#39;\\\n\t\\x1b\\x7f12";
    assert!(rt; html.into_bytes().as_slice() == wanted.as_slice());
    Ok(())
}

const PAGE: &[u8] = b"status 1260\nobject;web1;;UP;1250;fresh;-;0;up\n\
object;web1;HTTP;CRITICAL;1250;stale;sticky;1;timeout; 10s\n\
comment;3;web1;HTTP;ack;0;1255;ann;on it\n\
downtime;1;web1;HTTP;flexible;0;1200;1300;50;1250;bob;reboot\nclosing;9\n";

// Whether the last row of each kind is that of the page above.
fn is_read(page: &StatusPage<'_>) -> bool {
    let Some(object) = page.objects.last() else {
        return false;
    };
    let Some(comment) = page.comments.last() else {
        return false;
    };
    let Some(downtime) = page.downtimes.last() else {
        return false;
    };
    page.objects.len() == 2
        && object.state == State::Critical
        && object.stale
        && object.acknowledgement == ShownAcknowledgement::Sticky
        && object.output == b"timeout; 10s".as_slice()
        && comment.source == ShownSource::Acknowledgement
        && comment.author == b"ann".as_slice()
        && downtime.duration == 50
        && downtime.begin == Some(1250)
        && page.closing == Some(9)
}

#[test]
fn a_page_is_read(rt: HostRuntime) -> Result<(), Fail> {
    let page = read_status_page(rt.alloc(), PAGE)?;
    assert!(rt; is_read(&page));
    Ok(())
}

fn observe(
    memory: &mut Memory<&'static str, &'static str>,
    moment: u64,
    text: &'static str,
    objects: usize,
) {
    memory.observe(Fetch {
        moment,
        page: Ok(Page {
            text,
            moment: 100,
            objects,
            closing: false,
            is_other: false,
        }),
    });
}

fn is_two_of_110(memory: &Memory<&'static str, &'static str>) -> bool {
    match &memory.last {
        Some(kept) => kept.page.text == "two" && kept.moment == 110,
        None => false,
    }
}

#[test]
fn the_last_page_stays_and_is_old_after_60_seconds(rt: HostRuntime) {
    let mut memory: Memory<&'static str, &'static str> = Memory::new();
    observe(&mut memory, 100, "one", 3);
    assert!(rt; memory.old_alarm(160).is_none());
    assert!(rt; memory.old_alarm(161).is_some());
    observe(&mut memory, 110, "two", 2);
    memory.observe(Fetch {
        moment: 115,
        page: Err("slow"),
    });
    assert!(rt; is_two_of_110(&memory));
    assert!(rt; memory.fault == Some("slow"));
    assert!(rt; memory.most == 3);
    assert!(rt; memory.old_alarm(116).is_some());
}

#[test]
fn fewer_objects_are_accepted_after_an_hour_of_pages_that_agree(rt: HostRuntime) {
    let mut memory: Memory<&'static str, &'static str> = Memory::new();
    observe(&mut memory, 100, "whole", 3);
    observe(&mut memory, 110, "cut", 2);
    observe(&mut memory, 3709, "cut", 2);
    assert!(rt; memory.most == 3);
    observe(&mut memory, 3710, "cut", 2);
    assert!(rt; memory.most == 2);
    observe(&mut memory, 3720, "whole", 3);
    observe(&mut memory, 3730, "cut", 2);
    assert!(rt; memory.most == 3);
}
