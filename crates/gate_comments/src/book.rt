ghost use Rattle.std.specs.Prelude.{ℕ, Bool, List, ◌≡◌, ◌≢◌, ◌<◌, ◌≤◌, ◌+◌, ◌↔◌, [], ◌∷◌, ◌++◌, length, IfOk, OnOk, OnErr, IsErr, vec_len, vec_capacity};
ghost use Rattle.gate_model.specs.declared.comments.CommentEvent.TheVariants.{Add, Delete, DeleteAll, Clear, Gone};
ghost use Rattle.gate_model.specs.Comments.{number_made};
ghost use Rattle.gate_model.specs.Meaning.{is_same_kind};
ghost use Rattle.gate_model.specs.Search.{IsWithinBinaryDigits};
ghost use Rattle.gate_comments.specs.Search.{index_of_id, IsAscending};
ghost use Rattle.gate_comments.specs.Faults.{deletion_by_id};
ghost use Rattle.gate_comments.specs.Book.{KeepsMemory, without, with_live, AnswersBy, comment_by};
ghost use Rattle.gate_comments.specs.Standing.{IsStanding, AddsEvent, AreEnded, AddsEnds, HoldsAfter};

use crate::counts::{Counts, outlives, removes};
use crate::faults::{DeleteFault, IdsSpent};
use gate_model::{Comment, CommentEvent, Kind, ObjectId, Source, Steps, find_by_id};
use std::alloc::{AllocError, Global};
use std::marker::Model;

/// The comments that stand, ids ascending. Only `reserve` takes memory.
#[derive(Drop)]
pub struct CommentBook {
    comments: Vec<Comment>,
    counts: Counts,
    // 2^32 once the last id was given.
    next_id: u64,
}

impl Model for CommentBook {
    ghost use Rattle.std.specs.Prelude.{◌-◌, vec_len, vec_capacity};
    ghost use Rattle.gate_comments.specs.Book.{CommentsView};
    ghost use Rattle.gate_comments.specs.inner.Keeping.{IsKept};

    ghost Value = { CommentsView };

    ghost view = { λ book. record {
      comments = book.comments.items;
      next_id = book.next_id;
      room = vec_capacity book.comments - vec_len book.comments;
    } };

    ghost invariant = { λ book. IsKept book.comments.items book.counts.places.items (
        book.counts.downtimes) book.next_id (vec_capacity book.comments) };
}

impl CommentBook {
    /// A book without comments, the first of which will have that id.
    pub fn open(alloc: Global, first_id: u32) -> CommentBook
        requires { first_id ≢ 0 }
        ensures stands { IsStanding first_id result [] }
        ensures comments { result.comments ≡ [] }
        ensures next_id { result.next_id ≡ first_id }
        ensures room { result.room ≡ 0 }
    {
        CommentBook {
            comments: Vec::new(alloc),
            counts: Counts::new(alloc),
            next_id: u64::from(first_id),
        }
    }

    /// Takes the memory for that many more comments. It fails only where memory runs out.
    pub fn reserve(&mut self, more: usize) -> Result<(), AllocError>
        ensures stands { HoldsAfter self.old (λ first history. IsStanding first self.new history) }

        ensures room { OnOk result (more ≤ self.new.room) }
        ensures comments { self.new.comments ≡ self.old.comments }
        ensures next_id { self.new.next_id ≡ self.old.next_id }
        ensures kept { self.old.room ≤ self.new.room }
        ensures err { OnErr result (self.new ≡ self.old) }
    {
        self.counts.reserve()?;
        self.comments.reserve(more)
    }

    /// How many comments can be added without a `reserve`.
    pub fn room(&self) -> usize
        ensures { result ≡ self.now.room }
    {
        self.comments.capacity() - self.comments.len()
    }

    /// Adds a comment, made by the record with that log index, and answers its id. Each id is one
    /// more than the last, also where that comment was deleted. After 4,294,967,295 was given the
    /// answer is `IdsSpent`.
    pub fn add(
        &mut self,
        object: ObjectId,
        source: Source,
        persistent: bool,
        log_index: u32,
    ) -> Result<u32, IdsSpent>
        requires { 0 < self.old.room }
        ensures stands { OnOk result (
            AddsEvent (Add object source persistent log_index) self.old self.new) }
        ensures made { HoldsAfter self.old (λ first history.
            IfOk result (λ id. id ≡ first + number_made history)) }

        ensures id { IfOk result (λ id. id ≡ self.old.next_id) }
        ensures comments { OnOk result (self.new.comments
            ≡ self.old.comments
            ++ comment_by self.old.next_id object source persistent log_index ∷ []) }
        ensures next_id { OnOk result (self.new.next_id ≡ self.old.next_id + 1) }
        ensures room { KeepsMemory self.old self.new }

        ensures spent { IsErr result ↔ (4294967295 < self.old.next_id) }
        ensures err { OnErr result (self.new ≡ self.old) }
    {
        let Ok(id) = u32::try_from(self.next_id) else {
            return Err(IdsSpent);
        };
        let comment = Comment {
            id,
            object,
            source,
            persistent,
            log_index,
        };
        self.counts.add(comment);
        self.comments.push_reserved(comment);
        self.next_id += 1;
        Ok(id)
    }

    /// Deletes the comment of that id (External Command List, DEL_HOST_COMMENT, DEL_SVC_COMMENT).
    /// Where there is none the answer is `NoSuchComment`, and where it is on an object of the other
    /// kind, `WrongKind`.
    pub fn delete(&mut self, kind: Kind, id: u32) -> Result<(), DeleteFault>
        ensures stands { OnOk result (AddsEvent (Delete id) self.old self.new) }

        ensures answer { result ≡ deletion_by_id kind id self.old.comments }
        ensures comments { OnOk result (
            self.new.comments ≡ without (Delete id) self.old.comments) }
        ensures next_id { self.new.next_id ≡ self.old.next_id }
        ensures room { KeepsMemory self.old self.new }
        ensures err { OnErr result (self.new ≡ self.old) }
    {
        let mut steps = Steps::new();
        let Some(index) = find_by_id(&self.comments, id, &mut steps) else {
            return Err(DeleteFault::NoSuchComment);
        };
        let comment = self.comments[index];
        if !is_same_kind(kind, comment.object.kind) {
            return Err(DeleteFault::WrongKind);
        }
        self.counts.remove(comment);
        self.comments.remove(index);
        Ok(())
    }

    /// Deletes all comments of the object (External Command List, DEL_ALL_HOST_COMMENTS and
    /// DEL_ALL_SVC_COMMENTS). A host's leaves those of its services. Where the object has none,
    /// nothing is searched.
    pub fn delete_all(&mut self, object: ObjectId)
        ensures stands { AddsEvent (DeleteAll object.place) self.old self.new }
        ensures comments { self.new.comments ≡ without (DeleteAll object.place) self.old.comments }
        ensures next_id { self.new.next_id ≡ self.old.next_id }
        ensures room { KeepsMemory self.old self.new }
    {
        self.remove(CommentEvent::DeleteAll {
            place: object.place,
        });
    }

    /// Deletes those of the object's comments that are of acknowledgements and aren't persistent:
    /// its acknowledgement was cleared or removed. Where the object has no comments, nothing is
    /// searched. Own rule.
    pub fn clear_ack(&mut self, object: ObjectId)
        ensures stands { AddsEvent (Clear object.place) self.old self.new }
        ensures comments { self.new.comments ≡ without (Clear object.place) self.old.comments }
        ensures next_id { self.new.next_id ≡ self.old.next_id }
        ensures room { KeepsMemory self.old self.new }
    {
        self.remove(CommentEvent::Clear {
            place: object.place,
        });
    }

    /// Deletes the comments of the downtime entry of that id, which is live no more. Where no entry
    /// has a comment, nothing is searched. Own rule.
    pub fn drop_downtime(&mut self, id: u32)
        ensures stands { AddsEvent (Gone id) self.old self.new }
        ensures comments { self.new.comments ≡ without (Gone id) self.old.comments }
        ensures next_id { self.new.next_id ≡ self.old.next_id }
        ensures room { KeepsMemory self.old self.new }
    {
        self.remove(CommentEvent::Gone { id });
    }

    /// Deletes the comments of all downtime entries that aren't live, in one pass. Where no entry
    /// has a comment, nothing is searched. Own rule.
    pub fn drop_downtimes<L: Fn(u32) -> bool>(&mut self, is_live: L)
        requires callable { L.IsAlwaysCallable is_live }
        requires answered { (live : ℕ → Bool) × AnswersBy (L.post is_live) live }
        ensures stands { (live : ℕ → Bool) → AnswersBy (L.post is_live) live → (ids : List ℕ)
            → AreEnded live self.old.comments ids → AddsEnds ids self.old self.new }
        ensures comments { (live : ℕ → Bool) → AnswersBy (L.post is_live) live
            → self.new.comments ≡ with_live live self.old.comments }
        ensures next_id { self.new.next_id ≡ self.old.next_id }
        ensures room { KeepsMemory self.old self.new }
    {
        if self.counts.downtimes > 0 {
            self.counts.remove_ended(&self.comments, &is_live);
            retain_live(&mut self.comments, &is_live);
        }
    }

    /// The comments that stand, ids ascending.
    pub fn list(&self) -> &[Comment]
        ensures list { result.now ≡ self.now.comments }
        ensures ascending { IsAscending result.now }
    {
        self.comments.as_slice()
    }

    /// The index in `list` of the comment of that id, by binary search. It compares ids by `steps`
    /// alone, at most as many times as the list's length has binary digits.
    pub fn find(&self, id: u32, steps: &mut Steps) -> Option<usize>
        ensures index { result ≡ index_of_id id self.now.comments }
        ensures steps { IsWithinBinaryDigits (length self.now.comments) steps.old steps.new }
    {
        find_by_id(&self.comments, id, steps)
    }

    fn remove(&mut self, event: CommentEvent)
        ensures comments { self.new.comments ≡ without event self.old.comments }
        ensures next_id { self.new.next_id ≡ self.old.next_id }
        ensures room { KeepsMemory self.old self.new }
    {
        if self.counts.may_remove(event) {
            self.counts.remove_all(&self.comments, event);
            retain_others(&mut self.comments, event);
        }
    }
}

fn is_same_kind(one: Kind, other: Kind) -> bool
    ensures { result ≡ is_same_kind one other }
{
    one == other
}

/// Leaves the comments that the event doesn't remove.
fn retain_others(comments: &mut Vec<Comment>, event: CommentEvent)
    ensures comments { comments.new.items ≡ without event comments.old.items }
    ensures len { vec_len comments.new ≤ vec_len comments.old }
    ensures capacity { vec_capacity comments.new ≡ vec_capacity comments.old }
{
    comments.retain(|comment| !removes(event, *comment));
}

/// Leaves the comments of no downtime entry, and those of live ones.
fn retain_live<L: Fn(u32) -> bool>(comments: &mut Vec<Comment>, is_live: &L)
    requires { L.IsAlwaysCallable is_live.now }
    ensures comments { (live : ℕ → Bool) → AnswersBy (L.post is_live.now) live
        → comments.new.items ≡ with_live live comments.old.items }
    ensures len { vec_len comments.new ≤ vec_len comments.old }
    ensures capacity { vec_capacity comments.new ≡ vec_capacity comments.old }
{
    comments.retain(|comment| outlives(*comment, is_live));
}
