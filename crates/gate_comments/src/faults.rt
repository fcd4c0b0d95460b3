use thiserror::Error;

/// A comment was refused: the last id, 4,294,967,295, was given before. Own rule.
#[derive(Clone, Copy, Debug, PartialEq, Error)]
#[error("all ids of comments are spent")]
pub struct IdsSpent;

/// Why a comment isn't deleted, in the order of the tests. Own rule.
#[derive(Clone, Copy, Debug, PartialEq, Error)]
pub enum DeleteFault {
    /// No comment has that id.
    #[error("no such comment")]
    NoSuchComment,
    /// The comment is on an object of the other kind.
    #[error("the comment is on an object of the other kind")]
    WrongKind,
}
