ghost use Rattle.std.specs.Prelude.{◌≡◌, ◌+◌, ◌^◌, ◌<◌, ◌≤◌, ℕ, Bool, List, [], ◌∷◌, ◌++◌, length, OnOk, nat_lt, count_by};
ghost use Rattle.gate_model.specs.declared.comments.Comment.{Comment};
ghost use Rattle.gate_model.specs.Comments.{removes};
ghost use Rattle.gate_model.specs.Meaning.{outlives};
ghost use Rattle.gate_comments.specs.Book.{without, with_live, AnswersBy};
ghost use Rattle.gate_comments.specs.inner.Counts.{bucket_of, is_in_bucket, is_of_downtime, may_remove, IsCounted, CountsAll, KeepsPlaces};

use gate_model::{Comment, CommentEvent, Source};
use std::alloc::{AllocError, Global};

/// How many counts by place there are: as many as a table can have objects.
const BUCKETS: usize = 16_384;

/// How many comments are on each object, and how many are of downtime entries. A place beyond those
/// of a table shares its count with another, which costs a scan and changes no answer.
#[derive(Drop)]
pub struct Counts {
    pub places: Vec<u32>,
    pub downtimes: u32,
}

impl Counts {
    /// Counts of no comments, which take no memory yet.
    pub fn new(alloc: Global) -> Counts
        ensures places { result.places.items ≡ [] }
        ensures downtimes { result.downtimes ≡ 0 }
    {
        Counts {
            places: Vec::new(alloc),
            downtimes: 0,
        }
    }

    /// Takes the memory for all counts.
    pub fn reserve(&mut self) -> Result<(), AllocError>
        ensures sized { OnOk result (16384 ≤ length self.new.places.items) }
        ensures kept { length self.old.places.items ≤ length self.new.places.items }
        ensures counted { (comments : List Comment)
            → IsCounted self.old.places.items self.old.downtimes comments
            → IsCounted self.new.places.items self.new.downtimes comments }
    {
        if self.places.len() < BUCKETS {
            self.places.resize(BUCKETS, 0)?;
        }
        Ok(())
    }

    /// Counts one comment more.
    pub fn add(&mut self, comment: Comment)
        requires { 16384 ≤ length self.old.places.items }
        ensures len { KeepsPlaces self.old self.new }
        ensures counted { (comments : List Comment) → length comments + 1 < 2 ^ 32
            → IsCounted self.old.places.items self.old.downtimes comments
            → IsCounted self.new.places.items self.new.downtimes (comments ++ comment ∷ []) }
    {
        let bucket = bucket_of(comment.object.place);
        self.places[bucket] = self.places[bucket].saturating_add(1);
        if is_of_downtime(comment) {
            self.downtimes = self.downtimes.saturating_add(1);
        }
    }

    /// Counts one comment less.
    pub fn remove(&mut self, comment: Comment)
        requires { 16384 ≤ length self.old.places.items }
        ensures len { KeepsPlaces self.old self.new }
        ensures counted { (before after : List Comment)
            → IsCounted self.old.places.items self.old.downtimes (before ++ comment ∷ after)
            → IsCounted self.new.places.items self.new.downtimes (before ++ after) }
    {
        let bucket = bucket_of(comment.object.place);
        self.places[bucket] = self.places[bucket].saturating_sub(1);
        if is_of_downtime(comment) {
            self.downtimes = self.downtimes.saturating_sub(1);
        }
    }

    /// Counts the comments of the list no more that the event removes.
    pub fn remove_all(&mut self, comments: &[Comment], event: CommentEvent)
        requires counts { CountsAll self.old comments.now }
        ensures len { KeepsPlaces self.old self.new }
        ensures counted { IsCounted self.new.places.items self.new.downtimes (
            without event comments.now) }
    {
        for comment in comments {
            if removes(event, *comment) {
                self.remove(*comment);
            }
        }
    }

    /// Counts the comments of the list no more that are of downtime entries which aren't live.
    pub fn remove_ended<L: Fn(u32) -> bool>(&mut self, comments: &[Comment], is_live: &L)
        requires callable { L.IsAlwaysCallable is_live.now }
        requires counts { CountsAll self.old comments.now }
        ensures len { KeepsPlaces self.old self.new }
        ensures counted { (live : ℕ → Bool) → AnswersBy (L.post is_live.now) live
            → IsCounted self.new.places.items self.new.downtimes (with_live live comments.now) }
    {
        for comment in comments {
            if !outlives(*comment, is_live) {
                self.remove(*comment);
            }
        }
    }

    /// Whether the event may remove a comment: whether its object, or a downtime entry, has one.
    pub fn may_remove(&self, event: CommentEvent) -> bool
        ensures { (comments : List Comment)
            → IsCounted self.now.places.items self.now.downtimes comments
            → result ≡ may_remove event comments }
    {
        match event {
            CommentEvent::Add { .. } => false,
            CommentEvent::Delete { .. } => true,
            CommentEvent::DeleteAll { place } => self.has_place(place),
            CommentEvent::Clear { place } => self.has_place(place),
            CommentEvent::Gone { .. } => self.downtimes > 0,
        }
    }

    fn has_place(&self, place: u32) -> bool
        ensures { (comments : List Comment)
            → IsCounted self.now.places.items self.now.downtimes comments
            → result ≡ nat_lt 0 (count_by (is_in_bucket (bucket_of place)) comments) }
    {
        match self.places.get(bucket_of(place)) {
            None => false,
            Some(count) => *count > 0,
        }
    }
}

fn bucket_of(place: u32) -> usize
    ensures value { result ≡ bucket_of place }
    ensures within { result < 16384 }
{
    place as usize % BUCKETS
}

fn is_of_downtime(comment: Comment) -> bool
    ensures { result ≡ is_of_downtime comment }
{
    matches!(comment.source, Source::Downtime(_))
}

/// Whether the comment is of no downtime entry, or of a live one.
pub fn outlives<L: Fn(u32) -> bool>(comment: Comment, is_live: &L) -> bool
    requires { L.IsAlwaysCallable is_live.now }
    ensures { (live : ℕ → Bool) → AnswersBy (L.post is_live.now) live
        → result ≡ outlives live comment.source }
{
    match comment.source {
        Source::Downtime(entry) => is_live(entry),
        Source::User | Source::Ack => true,
    }
}

/// Whether the event removes the comment.
pub fn removes(event: CommentEvent, comment: Comment) -> bool
    ensures { result ≡ removes event comment }
{
    match event {
        CommentEvent::Add { .. } => false,
        CommentEvent::Delete { id } => comment.id == id,
        CommentEvent::DeleteAll { place } => comment.object.place == place,
        CommentEvent::Clear { place } => {
            comment.object.place == place
                && matches!(comment.source, Source::Ack)
                && !comment.persistent
        }
        CommentEvent::Gone { id } => match comment.source {
            Source::Downtime(entry) => entry == id,
            Source::User | Source::Ack => false,
        },
    }
}
