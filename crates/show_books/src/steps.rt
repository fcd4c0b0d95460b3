ghost use Rattle.std.specs.Prelude.{◌<◌};

use gate_model::{Kind, Moment, ObjectId, Plan, Source};

/// The objects of the books: the host `web1` and its service `HTTP`.
#[derive(Clone, Copy)]
pub enum Object {
    Web1,
    Http,
}

impl Object {
    pub fn id(self) -> ObjectId
        ensures { result.place < 2 }
    {
        match self {
            Object::Web1 => ObjectId {
                place: 0,
                kind: Kind::Host,
            },
            Object::Http => ObjectId {
                place: 1,
                kind: Kind::Service,
            },
        }
    }
}

/// A call of the book of objects, or what it shows of an object, or at a moment.
#[derive(Clone, Copy)]
pub enum ObjectStep {
    Result(Object, i16, Moment),
    Acknowledge(Object, bool),
    Remove(Object),
    Show(Object),
    Stale(Moment),
}

/// A call of the book of comments, or what it lists.
#[derive(Clone, Copy)]
pub enum CommentStep {
    Add(Object, Source, bool),
    Delete(Kind, u32),
    DeleteAll(Object),
    Clear(Object),
    Drop(u32),
    List,
}

/// A call of the book of downtime, or several: `Stairs` schedules so many entries on `HTTP`, and `Gone`
/// asks until no entry is returned.
#[derive(Clone, Copy)]
pub enum DowntimeStep {
    Schedule(Object, Plan),
    Stairs(u32),
    Cancel(Kind, u32),
    Advance(Moment),
    Transition(Object),
    Depth(Object),
    Begin(u32),
    Live,
    Gone,
}

/// What a line asks for.
#[derive(Clone, Copy)]
pub enum Step {
    /// New books, whose first id is this one, at a moment.
    Open(u32, Moment),
    Objects(ObjectStep),
    Comments(CommentStep),
    Downtime(DowntimeStep),
}

fn object_of(word: &str) -> Option<Object> {
    match word {
        "web1" => Some(Object::Web1),
        "HTTP" => Some(Object::Http),
        _ => None,
    }
}

fn kind_of(word: &str) -> Option<Kind> {
    match word {
        "host" => Some(Kind::Host),
        "service" => Some(Kind::Service),
        _ => None,
    }
}

fn number_of(word: &str) -> Option<u32> {
    word.parse::<u32>().ok()
}

fn moment_of(word: &str) -> Option<Moment> {
    Some(Moment(number_of(word)?))
}

// The first of two words, or the second.
fn is_first(word: &str, first: &str, second: &str) -> Option<bool> {
    if word == first {
        Some(true)
    } else if word == second {
        Some(false)
    } else {
        None
    }
}

// A comment of a user, of an acknowledgement, or of the downtime entry of an id.
fn source_of(word: &str) -> Option<Source> {
    match word {
        "user" => Some(Source::User),
        "ack" => Some(Source::Ack),
        id => Some(Source::Downtime(number_of(id)?)),
    }
}

fn plan_of(words: [&str; 5]) -> Option<Plan> {
    let [form, starts, ends, trigger, lasts] = words;
    Some(Plan {
        starts: moment_of(starts)?,
        ends: moment_of(ends)?,
        fixed: is_first(form, "fixed", "flexible")?,
        trigger: number_of(trigger)?,
        lasts: number_of(lasts)?,
        log_index: 0,
    })
}

fn object_step(name: &str, words: &[&str]) -> Option<ObjectStep> {
    match (name, words) {
        ("result", [object, code, moment]) => {
            let code = code.parse::<i16>().ok()?;
            Some(ObjectStep::Result(object_of(object)?, code, moment_of(moment)?))
        }
        ("acknowledge", [object, form]) => {
            let is_sticky = is_first(form, "sticky", "normal")?;
            Some(ObjectStep::Acknowledge(object_of(object)?, is_sticky))
        }
        ("remove", [object]) => Some(ObjectStep::Remove(object_of(object)?)),
        ("object", [object]) => Some(ObjectStep::Show(object_of(object)?)),
        ("stale", [moment]) => Some(ObjectStep::Stale(moment_of(moment)?)),
        _ => None,
    }
}

fn comment_step(name: &str, words: &[&str]) -> Option<CommentStep> {
    match (name, words) {
        ("add", [object, source, form]) => {
            let is_kept = is_first(form, "persistent", "passing")?;
            Some(CommentStep::Add(object_of(object)?, source_of(source)?, is_kept))
        }
        ("delete", [kind, id]) => Some(CommentStep::Delete(kind_of(kind)?, number_of(id)?)),
        ("delete_all", [object]) => Some(CommentStep::DeleteAll(object_of(object)?)),
        ("clear", [object]) => Some(CommentStep::Clear(object_of(object)?)),
        ("drop", [id]) => Some(CommentStep::Drop(number_of(id)?)),
        ("comments", []) => Some(CommentStep::List),
        _ => None,
    }
}

fn downtime_step(name: &str, words: &[&str]) -> Option<DowntimeStep> {
    match (name, words) {
        ("schedule", [object, form, starts, ends, trigger, lasts]) => {
            let plan = plan_of([form, starts, ends, trigger, lasts])?;
            Some(DowntimeStep::Schedule(object_of(object)?, plan))
        }
        ("stairs", [count]) => Some(DowntimeStep::Stairs(number_of(count)?)),
        ("cancel", [kind, id]) => Some(DowntimeStep::Cancel(kind_of(kind)?, number_of(id)?)),
        ("advance", [moment]) => Some(DowntimeStep::Advance(moment_of(moment)?)),
        ("transition", [object]) => Some(DowntimeStep::Transition(object_of(object)?)),
        ("depth", [object]) => Some(DowntimeStep::Depth(object_of(object)?)),
        ("begin", [id]) => Some(DowntimeStep::Begin(number_of(id)?)),
        ("live", []) => Some(DowntimeStep::Live),
        ("gone", []) => Some(DowntimeStep::Gone),
        _ => None,
    }
}

fn opening_of(name: &str, words: &[&str]) -> Option<Step> {
    match (name, words) {
        ("open", [id, moment]) => Some(Step::Open(number_of(id)?, moment_of(moment)?)),
        _ => None,
    }
}

/// The step that the words name, if they name one.
pub fn step_of(words: &[&str]) -> Option<Step> {
    let (name, words) = words.split_first()?;
    if let Some(step) = object_step(name, words) {
        return Some(Step::Objects(step));
    }
    if let Some(step) = comment_step(name, words) {
        return Some(Step::Comments(step));
    }
    if let Some(step) = downtime_step(name, words) {
        return Some(Step::Downtime(step));
    }
    opening_of(name, words)
}
