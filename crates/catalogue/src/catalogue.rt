ghost use Rattle.std.specs.Prelude.{◌≡◌, true};
ghost use Rattle.catalogue_law.specs.Catalogue.{sound as is_sound};

use crate::catalogue::calls::LIMIT;
use bounded::Bounded;
use form::instr::Entry;

pub mod calls;
pub mod reading;

/// The catalogue of admitted opcodes. The entries are sound: the first four are LGFI, LA, LAY and LARL, there are at most 512, each fits its
/// form and no two clash. Memory for all was taken when it was made.
#[derive(Drop)]
pub struct Catalogue {
    entries: Bounded<Entry, LIMIT>,
    ghost sound: { is_sound entries ≡ true },
}
