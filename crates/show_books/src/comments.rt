use crate::printing::kind_name;
use crate::steps::{CommentStep, Object};
use gate_comments::CommentBook;
use gate_model::{Comment, Source};
use std::io;
use std::io::{Error, ErrorKind, Write};

fn add(
    book: &mut CommentBook,
    object: Object,
    source: Source,
    is_persistent: bool,
    output: &mut impl Write,
) -> io::Result<()> {
    book.reserve(1)?;
    if book.room() == 0 {
        return Err(Error::from(ErrorKind::OutOfMemory));
    }
    write!(
        output,
        "{:?}",
        book.add(object.id(), source, is_persistent, 0)
    )
}

fn show_comment(comment: &Comment, output: &mut impl Write) -> io::Result<()> {
    write!(
        output,
        "{} on the {}",
        comment.id,
        kind_name(comment.object.kind)
    )?;
    match comment.source {
        Source::User => write!(output, " by a user")?,
        Source::Ack => write!(output, " by an acknowledgement")?,
        Source::Downtime(id) => write!(output, " by downtime {id}")?,
    }
    if comment.persistent {
        write!(output, ", persistent")?;
    }
    Ok(())
}

fn show_comments(comments: &[Comment], output: &mut impl Write) -> io::Result<()> {
    if comments.is_empty() {
        return write!(output, "none");
    }
    let mut separator = "";
    for comment in comments {
        write!(output, "{separator}")?;
        show_comment(comment, output)?;
        separator = "; ";
    }
    Ok(())
}

/// Plays a step on the book, and prints what it answers.
pub fn play_comments(
    book: &mut CommentBook,
    step: CommentStep,
    output: &mut impl Write,
) -> io::Result<()> {
    match step {
        CommentStep::Add(object, source, is_persistent) => {
            add(book, object, source, is_persistent, output)
        }
        CommentStep::Delete(kind, id) => write!(output, "{:?}", book.delete(kind, id)),
        CommentStep::DeleteAll(object) => {
            book.delete_all(object.id());
            write!(output, "done")
        }
        CommentStep::Clear(object) => {
            book.clear_ack(object.id());
            write!(output, "done")
        }
        CommentStep::Drop(id) => {
            book.drop_downtime(id);
            write!(output, "done")
        }
        CommentStep::List => show_comments(book.list(), output),
    }
}
