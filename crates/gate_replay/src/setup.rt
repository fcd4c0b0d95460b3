ghost use Rattle.std.specs.Prelude.{◌≡◌, true};
ghost use Rattle.gate_replay.specs.ScriptLine.{are_in_range};

use gate_model::Moment;
use gate_table::ObjectTable;

/// What a script opens with: a table of objects, a moment, the greatest age of a packet in seconds,
/// the most items of its queue and the most records of its log; all of them in their ranges.
#[derive(Drop)]
pub struct Setup {
    pub table: ObjectTable,
    pub moment: Moment,
    pub age: u32,
    pub capacity: u32,
    pub limit: u32,
    ghost in_range: { are_in_range age capacity limit ≡ true },
}
