ghost use Rattle.std.specs.Prelude.{◌≡◌, ℕ, ◌<◌, length, slice_get, Some};
ghost use Rattle.gate_model.specs.Search.{AreAscendingBy, index_by, IsWithinBinaryDigits};

use crate::comments::Comment;
use crate::steps::Steps;
use std::cmp::Ordering;

/// A value with an id, by which it is found among values whose ids ascend.
pub trait HasId {
    ghost id_of: { Self → ℕ };

    /// The value's id.
    fn id(&self) -> u32
        ensures { result ≡ id_of self.now };
}

impl HasId for u32 {
    ghost id_of = { λ id. id };

    fn id(&self) -> u32 {
        *self
    }
}

impl HasId for Comment {
    ghost id_of = { λ comment. comment.id };

    fn id(&self) -> u32 {
        self.id
    }
}

/// The index of the value of that id, by binary search. It compares ids by `steps` alone, at most as
/// many times as the number of values has binary digits.
pub fn find_by_id<T: HasId>(values: &[T], id: u32, steps: &mut Steps) -> Option<usize>
    requires { AreAscendingBy T.id_of values.now }
    ensures index { result ≡ index_by T.id_of id values.now }
    ensures steps { IsWithinBinaryDigits (length values.now) steps.old steps.new }
{
    let mut low = 0;
    let mut high = values.len();
    while low < high {
        let middle = low + (high - low) / 2;
        let found = id_at(values, middle);
        match steps.compare(found, id) {
            Ordering::Less => low = middle + 1,
            Ordering::Greater => high = middle,
            Ordering::Equal => return Some(middle),
        }
    }
    None
}

fn id_at<T: HasId>(values: &[T], index: usize) -> u32
    requires { index < length values.now }
    ensures { (value : T) × (slice_get values.now index ≡ Some value) × (result ≡ T.id_of value) }
{
    values[index].id()
}
