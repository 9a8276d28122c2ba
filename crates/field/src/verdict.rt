ghost use Rattle.std.specs.Prelude.{◌≡◌};
ghost use Rattle.field.specs.Family.{reason_of, field_refused_at};

use refusal::{Reason, Refusal};

/// Why a family refuses.
#[derive(Clone, Copy, PartialEq, Eq, Debug)]
pub enum FieldRefusal {
    /// a kind that the family does not have, or fewer bytes than it has
    Kind,
    /// a distance outside the kind's range
    Far,
    /// a distance that is no multiple of the family's `ALIGN`
    Odd,
}

impl From<FieldRefusal> for Reason {
    ghost from_gives = { λ cause reason. reason ≡ reason_of cause };

    fn from(cause: FieldRefusal) -> Reason {
        match cause {
            FieldRefusal::Kind => Reason::Kind,
            FieldRefusal::Far => Reason::Far,
            FieldRefusal::Odd => Reason::Odd,
        }
    }
}

impl FieldRefusal {
    /// The refusal of a distance for this reason, at the byte `place`.
    pub fn at(self, place: usize) -> Refusal
        ensures { result ≡ field_refused_at place self }
    {
        Refusal::of_distance(place, self.into())
    }
}
