//! The label family and the relocation family. Both overwrite the field.

#![tactic(auto)]

ghost use Rattle.std.specs.Prelude.{◌≡◌, true};
ghost use Rattle.field.specs.Family.{BothFamiliesServe};

use field::fit::serves_section;

pub mod labels;
pub mod relocations;

use labels::Labels;
use relocations::Relocations;

/// Both families are lawful, and a code section takes them.
pub fn families_serve() -> bool
    ensures answers { result ≡ true }
    ensures lawful { BothFamiliesServe }
{
    serves_section::<Labels>() && serves_section::<Relocations>()
}
