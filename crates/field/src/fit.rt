ghost use Rattle.std.specs.Prelude.{◌≡◌};
ghost use Rattle.field.specs.Family.{serves};

use crate::distance::alignment;
use crate::family::FieldRead;

/// Whether a code section takes the family: distances in units of 2; kinds 1 and 2 end with bytes 4 and 6 of the instruction, their
/// fields are its bytes 2 to 3 and 2 to 5, and take what the branches of these lengths reach.
pub fn serves_section<F: FieldRead>() -> bool
    ensures { result ≡ serves F.FieldRead.fields }
{
    alignment::<F>() == 2
        && F::info(1).is_ok_and(|info| info.spans(4, -65_536, 65_534))
        && F::info(2).is_ok_and(|info| info.spans(6, -4_294_967_295, 4_294_967_294))
}
