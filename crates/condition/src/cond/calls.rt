ghost use Rattle.std.specs.Prelude.{◌≡◌, ℕ, ◌-◌, ◌^◌, ◌<◌, true, not};
ghost use Rattle.refusal.specs.Refusals.{answer};
ghost use Rattle.condition.specs.Conditions.{Reading, serves, holds};
ghost use Rattle.condition.specs.Masks.{selects, compared, mask_of, masked, mask_refusal};

use crate::cond::Cond;
use crate::condcodes::IntCC;
use refusal::{Reason, Refusal};

impl Cond {
    /// The condition of this mask. One that selects no code, or all four, is refused.
    pub fn from_mask(mask: u8) -> Result<Cond, Refusal>
        ensures { masked result ≡ answer 0 (mask_refusal mask) mask }
    {
        if mask >= 1 && mask <= 14 {
            Ok(Cond { mask })
        } else {
            Err(Refusal::at(0, Reason::Operand))
        }
    }

    /// The condition on which to branch after a comparison of integers.
    pub fn from_intcc(cc: IntCC) -> Cond
        ensures is { result.mask ≡ mask_of cc }
        ensures branches { (m : Reading) (w a b : ℕ) → serves cc m ≡ true → a < 2 ^ w → b < 2 ^ w → selects result.mask (compared m w a b) ≡ holds w cc a b }
    {
        let mask = match cc {
            IntCC::Equal => 8,
            IntCC::NotEqual => 4 | 2,
            IntCC::SignedGreaterThanOrEqual => 8 | 2,
            IntCC::SignedGreaterThan => 2,
            IntCC::SignedLessThanOrEqual => 8 | 4,
            IntCC::SignedLessThan => 4,
            IntCC::UnsignedGreaterThanOrEqual => 8 | 2,
            IntCC::UnsignedGreaterThan => 2,
            IntCC::UnsignedLessThanOrEqual => 8 | 4,
            IntCC::UnsignedLessThan => 4,
        };
        Cond { mask }
    }

    /// The inverted condition.
    pub fn invert(self) -> Cond
        ensures is { result.mask ≡ 15 - self.mask }
        ensures negates { (code : ℕ) → code < 4 → selects result.mask code ≡ not (selects self.mask code) }
    {
        Cond {
            mask: !self.mask & 15,
        }
    }

    /// The machine encoding of this condition.
    pub fn bits(self) -> u8
        ensures { result ≡ self.mask }
    {
        self.mask
    }
}
