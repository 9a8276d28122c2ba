ghost use Rattle.std.specs.Prelude.{◌≡◌, ℕ, List, length, ℤ, pos, Ok};
ghost use Rattle.refusal.specs.Refusals.{answered};
ghost use Rattle.field.specs.Family.{Fields, LawfulFields, Lawful, family, told, held as heldIn, ZeroField, refuses, after_patch};

use crate::info::FieldInfo;
use crate::verdict::FieldRefusal;

// A kind is a number: each family has kinds of its own, and a book holds uses of two families of anyone's making.

/// What a family of fields tells. The bytes that it is given are its own: `size` of them, from `lead` bytes into the instruction on.
pub trait FieldRead {
    ghost fields: { Fields };

    ghost ALIGN: { ℤ };

    /// The distances that a field holds are the multiples of it.
    const ALIGN: i64;

    /// All that the family tells of a kind.
    fn info(kind: u8) -> Result<FieldInfo, FieldRefusal>
        ensures { result ≡ told (λ i. i) (fields.table kind) };

    /// Bytes from the instruction's start to the family's bytes; at most 16.
    fn lead(kind: u8) -> Result<u8, FieldRefusal>
        ensures { result ≡ told (λ i. i.lead) (fields.table kind) }
    {
        Self::info(kind).map(|info| info.lead)
    }

    /// How many bytes the family wants; at most 16.
    fn size(kind: u8) -> Result<u8, FieldRefusal>
        ensures { result ≡ told (λ i. i.size) (fields.table kind) }
    {
        Self::info(kind).map(|info| info.size)
    }

    /// The field among them: its first byte, and the first one past it.
    fn field(kind: u8) -> Result<(u8, u8), FieldRefusal>
        ensures { result ≡ told (λ i. (i.first, i.past)) (fields.table kind) }
    {
        Self::info(kind).map(|info| (info.first, info.past))
    }

    /// The least distance.
    fn least(kind: u8) -> Result<i64, FieldRefusal>
        ensures { result ≡ told (λ i. i.least) (fields.table kind) }
    {
        Self::info(kind).map(|info| info.least)
    }

    /// The greatest distance.
    fn greatest(kind: u8) -> Result<i64, FieldRefusal>
        ensures { result ≡ told (λ i. i.greatest) (fields.table kind) }
    {
        Self::info(kind).map(|info| info.greatest)
    }

    /// The distance that the bytes hold: `ALIGN` times the field as a signed big-endian number.
    fn held(kind: u8, bytes: &[u8]) -> Result<i64, FieldRefusal>
        ensures { result ≡ heldIn fields kind bytes.now };

    ghost lawful: { LawfulFields fields };

    ghost aligned: { ALIGN ≡ pos fields.align };
}

/// Adds the call that writes a distance.
pub trait FieldPatch: FieldRead {
    ghost patched: { ℕ → List ℕ → ℤ → List ℕ };

    /// Writes a distance into the field. Refused, no byte changes. Accepted, no byte outside the field changes, and a field that was zero
    /// then holds the distance; what becomes of one that was not zero is each family's own, a function of kind, bytes and distance.
    fn patch(kind: u8, bytes: &mut [u8], distance: i64) -> Result<(), FieldRefusal>
        ensures answers { result ≡ answered (refuses Self.FieldRead.fields kind (length bytes.old) distance) tt }
        ensures leaves { bytes.new ≡ after_patch (family Self.FieldRead.fields patched) kind bytes.old distance }
        ensures holds { result ≡ Ok tt → ZeroField (Self.FieldRead.fields.table kind) bytes.old → heldIn Self.FieldRead.fields kind bytes.new ≡ Ok distance };

    ghost patches: { Lawful (family Self.FieldRead.fields patched) };
}
