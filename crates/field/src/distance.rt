ghost use Rattle.std.specs.Prelude.{◌≡◌, pos};
ghost use Rattle.refusal.specs.Refusals.{answered};
ghost use Rattle.field.specs.Family.{refuses};

use crate::family::FieldRead;
use crate::verdict::FieldRefusal;

/// The alignment of a family, for generic code.
pub fn alignment<F: FieldRead>() -> i64
    ensures { result ≡ pos F.FieldRead.fields.align }
{
    F::ALIGN
}

/// The distance, if a field of this kind can hold it in so many bytes, or why it cannot: `FieldInfo`'s verdict, by which patching and settling go.
pub fn checked_distance<F: FieldRead>(
    kind: u8,
    given: usize,
    distance: i128,
) -> Result<i64, FieldRefusal>
    ensures { result ≡ answered (refuses F.FieldRead.fields kind given distance) distance }
{
    F::info(kind)?.checked_distance(alignment::<F>(), given, distance)
}
