ghost use Rattle.std.specs.Prelude.{◌≡◌, ◌+◌, ◌&&◌, ◌||◌, pos, ◌<ℤ◌, if◌then◌else◌, None, Some, ◌==◌, int_lt, unsigned_abs};
ghost use Rattle.refusal.specs.Refusals.{answered};
ghost use Rattle.field.specs.Family.{spans, multiple, refuses_by};

use crate::verdict::FieldRefusal;

/// What a family tells of one kind of field.
#[derive(Clone, Copy, PartialEq, Eq, Debug)]
pub struct FieldInfo {
    /// bytes from the instruction's start to the family's bytes; at most 16
    pub lead: u8,
    /// how many bytes the family wants; at most 16
    pub size: u8,
    /// the field among them: its first byte
    pub first: u8,
    /// and the first one past it
    pub past: u8,
    /// the least distance
    pub least: i64,
    /// the greatest distance
    pub greatest: i64,
}

/// Whether the distance is a whole number of steps.
fn divides(step: i64, distance: i64) -> bool
    requires { pos 0 <ℤ step }
    ensures { result ≡ multiple (unsigned_abs step) distance }
{
    distance % step == 0
}

impl FieldInfo {
    /// Whether the field ends with so many bytes of the instruction, from byte 2 on, and takes these distances.
    pub fn spans(self, end: usize, low: i64, high: i64) -> bool
        ensures { result ≡ spans end low high (Some self) }
    {
        let lead = self.lead as usize;
        lead + self.size as usize == end
            && lead + self.first as usize == 2
            && lead + self.past as usize == end
            && self.least <= low
            && high <= self.greatest
    }

    /// The distance, if it lies in the kind's range.
    fn in_range(self, distance: i128) -> Option<i64>
        ensures { result ≡ (if int_lt distance self.least || int_lt self.greatest distance then None else Some distance) }
    {
        let near = i64::try_from(distance).ok()?;
        (self.least <= near && near <= self.greatest).then_some(near)
    }

    /// The distance, if the field can hold it in units of `align` among so many bytes, or why it cannot.
    pub(crate) fn checked_distance(
        self,
        align: i64,
        given: usize,
        distance: i128,
    ) -> Result<i64, FieldRefusal>
        requires { pos 0 <ℤ align }
        ensures { result ≡ answered (refuses_by (unsigned_abs align) (Some self) given distance) distance }
    {
        if given < self.size as usize {
            return Err(FieldRefusal::Kind);
        }
        let near = self.in_range(distance).ok_or(FieldRefusal::Far)?;
        if !divides(align, near) {
            return Err(FieldRefusal::Odd);
        }
        Ok(near)
    }
}
