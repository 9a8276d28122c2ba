ghost use Rattle.std.specs.Prelude.{◌≤◌, length};

pub mod calls;

use crate::target::Slot;
use bounded::Bounded;

/// How many labels a book has room for.
pub const MOST_LABELS: usize = 256;

/// What became of each label, by its number; at most 256. The memory is taken when the book is made.
#[derive(Drop)]
pub struct LabelBook {
    slots: Bounded<Slot, MOST_LABELS>,
    ghost few: { length slots ≤ 256 },
}
