ghost use Rattle.std.specs.Prelude.{◌≡◌, pos, ◌<ℤ◌, Ok, Some, length, unsigned_abs};
ghost use Rattle.refusal.specs.Refusals.{answered, unless};
ghost use Rattle.field.specs.Family.{refuses_by, held_by, overwritten, FitsWord};

use crate::bytes::{put_number, signed_number};
use crate::info::FieldInfo;
use crate::verdict::FieldRefusal;

/// A kind's field, in units of an alignment, whose numbers are of 64 bits.
#[derive(Clone, Copy, PartialEq, Eq, Debug)]
pub struct AlignedField {
    /// the distances that the field holds are the multiples of it
    pub align: i64,
    /// where the field lies, and its range
    pub info: FieldInfo,
    pub ghost above: { pos 0 <ℤ align },
    pub ghost fits: { FitsWord (unsigned_abs align) info },
}

impl AlignedField {
    /// The distance that the bytes hold.
    pub fn held(self, bytes: &[u8]) -> Result<i64, FieldRefusal>
        ensures { result ≡ held_by (unsigned_abs self.align) (Some self.info) bytes.now }
    {
        if bytes.len() < self.info.size as usize {
            return Err(FieldRefusal::Kind);
        }
        let field = &bytes[self.info.first as usize..self.info.past as usize];
        Ok(self.align * signed_number(field))
    }

    /// Overwrites the field with a distance. Refused, no byte changes; accepted, the bytes hold the distance.
    pub fn overwrite(self, bytes: &mut [u8], distance: i64) -> Result<(), FieldRefusal>
        ensures answers { result ≡ answered (refuses_by (unsigned_abs self.align) (Some self.info) (length bytes.old) distance) tt }
        ensures leaves { bytes.new ≡ unless (refuses_by (unsigned_abs self.align) (Some self.info) (length bytes.old) distance) (overwritten (unsigned_abs self.align) (Some self.info) bytes.old distance) bytes.old }
        ensures holds { result ≡ Ok tt → held_by (unsigned_abs self.align) (Some self.info) bytes.new ≡ Ok distance }
    {
        let distance = self
            .info
            .checked_distance(self.align, bytes.len(), distance as i128)?;
        put_number(
            &mut bytes[self.info.first as usize..self.info.past as usize],
            distance / self.align,
        );
        Ok(())
    }
}
