ghost use Rattle.std.specs.Prelude.{◌≡◌, ◌<◌, ◌≤◌, ◌+◌, max, ℕ, Bool, false, None, [], length, is_ok, IsOk, IfOk, IfErr, OnOk, OnErr};
ghost use Rattle.gate_model.specs.declared.record.Moment.{Moment};
ghost use Rattle.gate_model.specs.Record.{later};
ghost use Rattle.gate_model.specs.Table.{most_services};
ghost use Rattle.gate_model.specs.Status.{is_passive};
ghost use Rattle.gate_downtime.specs.Book.{next_id, next_gone_now};
ghost use Rattle.gate_applier.specs.inner.Books.{Events, events_of, BooksFollow, BooksStand, ReturnsGone, Follows, TakesOne, SameTable, KeepsRoom, room_of_books, SharesRoom, IsOfTable, result_added, comment_added, transition_added, clearing_added, IsStandingSource};

use gate_comments::CommentBook;
use gate_downtime::DowntimeBook;
use gate_model::{Moment, ObjectId, Outcome, Source};
use gate_objects::{ObjectBook, PassiveDisabled};
use gate_table::ObjectTable;
use std::alloc::{AllocError, Global};

/// What the judged records leave, kept so that no question and no further record needs a scan of
/// the log.
#[derive(Drop)]
pub struct Books {
    pub objects: ObjectBook,
    pub downtime: DowntimeBook,
    pub comments: CommentBook,
    /// The most comments and the most entries that one record makes: 1, or one for each service of the
    /// host with the most of them.
    pub per_record: usize,
}

impl Books {
    /// The books of the table's objects, opened at that moment. It fails only where memory runs out.
    pub fn open(alloc: Global, table: &ObjectTable, opening: Moment) -> Result<Books, AllocError>
        ensures stand { IfOk result (λ books. BooksStand (events_of table.now []) opening books) }
        ensures table { IfOk result (λ books. IsOfTable table.now opening books) }
    {
        Ok(Books {
            objects: ObjectBook::open(alloc, table, opening)?,
            downtime: DowntimeBook::open(alloc, table.len(), 1, opening)?,
            comments: CommentBook::open(alloc, 1),
            per_record: most_per_record(table),
        })
    }

    /// Makes room for all comments and downtime entries that one more record makes. It takes no
    /// memory where there is room.
    pub fn make_room(&mut self) -> Result<(), AllocError>
        requires one { 1 ≤ self.old.per_record }
        requires few { self.old.per_record ≤ 1024 }
        ensures same { SharesRoom self.old self.new }
        ensures room { OnOk result (1 ≤ room_of_books self.new) }
        ensures kept { OnErr result (room_of_books self.new ≡ room_of_books self.old) }
        ensures has_room { 1 ≤ room_of_books self.old → IsOk result × (self.new ≡ self.old) }
    {
        if self.comments.room() < self.per_record {
            self.comments.reserve(self.per_record)?;
        }
        if self.downtime.room() < self.per_record {
            self.downtime.reserve(self.per_record as u32)?;
        }
        Ok(())
    }

    /// Goes on to a later moment: entries begin and end, and the comments of those that end are
    /// dropped. An earlier moment changes nothing.
    pub fn advance(&mut self, moment: Moment)
        ensures stand { (events : Events) (before : Moment) → BooksStand events before self.old
            → BooksStand events (later before moment) self.new }
        ensures table { SameTable self.old self.new }
        ensures room { KeepsRoom self.old self.new }
    {
        self.downtime.advance(moment);
        self.settle();
    }

    /// Drops the comments of the downtime entries that are gone.
    pub fn settle(&mut self)
        ensures stand { (events : Events) (moment : Moment) → BooksFollow events moment self.old
            → BooksStand events moment self.new }
        ensures table { SameTable self.old self.new }
        ensures room { KeepsRoom self.old self.new }
    {
        if drain_gone(&mut self.downtime) {
            let downtime = &self.downtime;
            self.comments.drop_downtimes(|id| downtime.is_live(id));
        }
    }

    /// Takes a result, unless passive checks of its object are disabled: what it makes of the
    /// object, what it begins and what it clears.
    pub fn take_result(
        &mut self,
        object: ObjectId,
        code: i16,
        log_index: u32,
        moment: Moment,
    ) -> Result<(), Outcome>
        requires row { object.place < length self.old.objects.statuses }
        requires place { object.place < self.old.downtime.objects }
        ensures follow { OnOk result (
            Follows moment (result_added object code log_index moment) self.old self.new) }
        ensures accepted { (events : Events) → BooksFollow events moment self.old
            → is_ok result ≡ is_passive object.place events.objects }
        ensures refused { IfErr result (λ refusal. refusal ≡ Outcome.PassiveDisabled) }
        ensures kept { OnErr result (self.new ≡ self.old) }
        ensures takes { TakesOne self.old self.new }
    {
        match self.objects.result(object, code, log_index, moment) {
            Ok(change) => {
                self.take_transition(object, change.transition);
                self.take_clearing(object, change.cleared);
                Ok(())
            }
            Err(PassiveDisabled) => Err(Outcome::PassiveDisabled),
        }
    }

    /// Begins the downtime entries that a transition of the object begins, if there is one.
    fn take_transition(&mut self, object: ObjectId, transition: bool)
        requires { object.place < self.old.downtime.objects }
        ensures follow { (moment : Moment)
            → Follows moment (transition_added transition moment object.place) self.old self.new }
        ensures table { SameTable self.old self.new }
        ensures room { KeepsRoom self.old self.new }
        ensures same { self.new.objects ≡ self.old.objects }
    {
        if transition {
            self.downtime.transition(object);
        }
    }

    /// Removes the comments that a clearing of the object's acknowledgement removes, if there is one.
    fn take_clearing(&mut self, object: ObjectId, cleared: bool)
        ensures follow { (moment : Moment)
            → Follows moment (clearing_added cleared object.place) self.old self.new }
        ensures table { SameTable self.old self.new }
        ensures room { KeepsRoom self.old self.new }
        ensures same { self.new.objects ≡ self.old.objects }
    {
        if cleared {
            self.comments.clear_ack(object);
        }
    }

    /// Adds a comment.
    pub fn add_comment(
        &mut self,
        object: ObjectId,
        source: Source,
        persistent: bool,
        log_index: u32,
    )
        requires room { 0 < self.old.comments.room }
        requires id { self.old.comments.next_id ≤ 4294967295 }
        ensures follow { (moment : Moment) → IsStandingSource self.old.downtime source
            → Follows moment (comment_added object source persistent log_index) self.old self.new }
        ensures takes { TakesOne self.old self.new }
        ensures next_id { self.new.comments.next_id ≡ self.old.comments.next_id + 1 }
        ensures downtime { self.new.downtime ≡ self.old.downtime }
    {
        match self.comments.add(object, source, persistent, log_index) {
            Ok(_) => {}
            Err(_) => unreachable!(),
        }
    }
}

/// Has all downtime entries that are gone returned, and answers whether there was one.
fn drain_gone(downtime: &mut DowntimeBook) -> bool
    ensures returned { ReturnsGone downtime.old downtime.new }
    ensures settled { next_gone_now downtime.new ≡ None }
    ensures none { result ≡ false → downtime.new ≡ downtime.old }
{
    let mut any = false;
    'gone: while downtime.next_gone().is_some() {
        any = true;
    }
    any
}

/// The most comments, and the most entries, that a record makes over this table.
fn most_per_record(table: &ObjectTable) -> usize
    ensures most { result ≡ max 1 (most_services table.now) }
    ensures few { result ≤ 1024 }
{
    let most = table.most_services();
    if most > 1 { most } else { 1 }
}
