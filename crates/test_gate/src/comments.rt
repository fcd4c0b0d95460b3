use crate::parts::{HTTP, WEB1};
use gate_comments::{CommentBook, DeleteFault};
use gate_model::{Kind, ObjectId, Source, Steps};
use std::alloc::Global;

// Whether a comment is added with this id.
fn adds(
    book: &mut CommentBook,
    object: ObjectId,
    source: Source,
    persistent: bool,
    id: u32,
) -> bool {
    if book.reserve(1).is_err() || book.room() == 0 {
        return false;
    }
    book.add(object, source, persistent, 0) == Ok(id)
}

// Comments on HTTP: 1 of an acknowledgement, 2 of one that is persistent, 3 of the downtime entry 7;
// and 4 of a user on web1.
fn adds_four(book: &mut CommentBook) -> bool {
    adds(book, HTTP, Source::Ack, false, 1)
        && adds(book, HTTP, Source::Ack, true, 2)
        && adds(book, HTTP, Source::Downtime(7), false, 3)
        && adds(book, WEB1, Source::User, false, 4)
}

fn ids(alloc: Global, book: &CommentBook) -> Option<Vec<u32>> {
    book.list()
        .iter()
        .map(|comment| comment.id)
        .collect(alloc)
        .ok()
}

// Whether these are the comments.
fn has_just(alloc: Global, book: &CommentBook, want: &[u32]) -> bool {
    match ids(alloc, book) {
        Some(ids) => ids.as_slice() == want,
        None => false,
    }
}

// Whether comment 2 is deleted once and by its own kind.
fn deletes_once(book: &mut CommentBook) -> bool {
    book.delete(Kind::Host, 2) == Err(DeleteFault::WrongKind)
        && book.delete(Kind::Service, 2) == Ok(())
        && book.delete(Kind::Service, 2) == Err(DeleteFault::NoSuchComment)
}

fn keeps_its_list(alloc: Global) -> bool {
    let mut book = CommentBook::open(alloc, 1);
    let are_added = adds_four(&mut book);
    book.clear_ack(HTTP);
    let is_cleared = has_just(alloc, &book, &[2, 3, 4]);
    book.drop_downtime(7);
    let is_over = has_just(alloc, &book, &[2, 4]);
    let is_found = book.find(4, &mut Steps::new()) == Some(1);
    let is_deleted = deletes_once(&mut book);
    book.delete_all(WEB1);
    let are_deleted = book.list().is_empty();
    drop(book);
    are_added && is_cleared && is_over && is_found && is_deleted && are_deleted
}

#[test]
fn a_comment_stands_until_it_is_deleted_or_its_cause_ends(rt: HostRuntime) {
    assert!(rt; keeps_its_list(rt.alloc()));
}
