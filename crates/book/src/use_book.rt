ghost use Rattle.std.specs.Prelude.{◌≤◌, length};

pub mod calls;

use crate::target::Use;
use bounded::Bounded;

/// How many uses a book has room for.
pub const MOST_USES: usize = 1024;

/// The fields to fill, in the order recorded; at most 1,024. The memory is taken when the book is made.
#[derive(Drop)]
pub struct UseBook {
    uses: Bounded<Use, MOST_USES>,
    ghost few: { length uses ≤ 1024 },
}
