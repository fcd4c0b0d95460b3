//! When two rows of status pages show the same, but for ids and moments.

ghost use Rattle.std.specs.Prelude.{◌≡◌};
ghost use Rattle.gate_model.specs.State.{number_of_state};
ghost use Rattle.page_return.specs.Again.{number_of_acknowledgement, number_of_source, is_same, is_same_object, is_same_comment, is_same_downtime};

use gate_model::State;
use status_reading::{ShownAcknowledgement, ShownComment, ShownDowntime, ShownObject, ShownSource};

/// A row that another page may show again.
pub trait Again {
    ghost use Rattle.std.specs.Prelude.{Bool};

    ghost same: { Self → Self → Bool };

    /// Whether the other row shows the same.
    fn is_again(&self, other: &Self) -> bool
        ensures { result ≡ same self.now other.now };
}

pub fn number_of_state(state: State) -> u8
    ensures { result ≡ number_of_state state }
{
    match state {
        State::Pending => 0,
        State::Ok => 1,
        State::Warning => 2,
        State::Critical => 3,
        State::Unknown => 4,
        State::Up => 5,
        State::Down => 6,
        State::Unreachable => 7,
    }
}

fn number_of_acknowledgement(shown: ShownAcknowledgement) -> u8
    ensures { result ≡ number_of_acknowledgement shown }
{
    match shown {
        ShownAcknowledgement::Missing => 0,
        ShownAcknowledgement::Normal => 1,
        ShownAcknowledgement::Sticky => 2,
    }
}

fn number_of_source(source: ShownSource) -> u8
    ensures { result ≡ number_of_source source }
{
    match source {
        ShownSource::User => 0,
        ShownSource::Acknowledgement => 1,
        ShownSource::Downtime => 2,
    }
}

fn is_same(one: bool, other: bool) -> bool
    ensures { result ≡ is_same one other }
{
    if one { other } else { !other }
}

impl<'a> Again for ShownObject<'a> {
    ghost same = { is_same_object };

    fn is_again(&self, other: &ShownObject<'a>) -> bool {
        self.host == other.host
            && self.service == other.service
            && number_of_state(self.state) == number_of_state(other.state)
            && number_of_acknowledgement(self.acknowledgement)
                == number_of_acknowledgement(other.acknowledgement)
            && self.output == other.output
    }
}

impl<'a> Again for ShownComment<'a> {
    ghost same = { is_same_comment };

    fn is_again(&self, other: &ShownComment<'a>) -> bool {
        self.host == other.host
            && self.service == other.service
            && number_of_source(self.source) == number_of_source(other.source)
            && is_same(self.persistent, other.persistent)
            && self.author == other.author
            && self.text == other.text
    }
}

impl<'a> Again for ShownDowntime<'a> {
    ghost same = { is_same_downtime };

    fn is_again(&self, other: &ShownDowntime<'a>) -> bool {
        self.host == other.host
            && self.service == other.service
            && is_same(self.fixed, other.fixed)
            && is_same(self.trigger == 0, other.trigger == 0)
            && self.start == other.start
            && self.end == other.end
            && self.duration == other.duration
            && self.author == other.author
            && self.text == other.text
    }
}
