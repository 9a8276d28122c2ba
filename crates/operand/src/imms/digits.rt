ghost use Rattle.std.specs.Prelude.{◌≡◌, ℕ, ◌-◌, ◌*◌, ◌/◌, ◌%◌, ◌^◌, ◌<◌, ◌≤◌, if◌then◌else◌, Some, None, decimal, nat_lt};
ghost use Rattle.std.specs.Option.{option_map};
ghost use Rattle.operand.specs.Imms.{parts, shifted, least_shift, LeastShift};

use crate::imms::Shifted;
use std::fmt;

mod halfword;
mod word;

/// A digit that a number of 64 bits is written in.
pub trait Digit: Copy {
    // how many bits it has
    ghost width: { ℕ };

    ghost number: { Self → ℕ };

    /// The name that its immediate is printed under.
    const NAME: &'static str = "Shifted";

    /// How many bits it has.
    fn bits() -> u8
        ensures { result ≡ width };

    /// The low digit of a number.
    fn low(value: u64) -> Self
        ensures { number result ≡ value % 2 ^ width };

    /// The digit as a number.
    fn widened(self) -> u64
        ensures { result ≡ number self };

    /// Every bit inverted.
    fn inverted(self) -> Self
        ensures { number result ≡ 2 ^ width - 1 - number self };

    ghost some: { 0 < width };

    ghost few: { 4 * width < 256 };
}

impl<T: Digit> Shifted<T> {
    /// The immediate of an arbitrary 64-bit constant, if there is one: that with the least shift.
    pub fn maybe_from_u64(value: u64) -> Option<Shifted<T>>
        ensures is { option_map (parts T.number) result ≡ least_shift T.width (64 / T.width) value }
        ensures means { LeastShift T.width (64 / T.width) value (option_map (parts T.number) result) }
    {
        for shift in 0..64 / T::bits() {
            let low = T::bits() * shift;
            let bits = T::low(value >> low);
            if bits.widened() << low == value {
                return Some(Shifted { bits, shift });
            }
        }
        None
    }

    /// `imm` shifted left by `shift` bits, counted down to a whole digit. A shift of four digits is none, and more are none: a digit of 32 bits takes
    /// shifts of 64 to 127 too.
    pub fn maybe_with_shift(imm: T, shift: u8) -> Option<Shifted<T>>
        ensures { result ≡ (if nat_lt shift (4 * T.width) then Some (shifted imm (shift / T.width)) else None) }
    {
        let shift = shift / T::bits();
        if shift > 3 {
            None
        } else {
            Some(Shifted { bits: imm, shift })
        }
    }

    /// Every bit inverted, at the same shift.
    pub fn negate_bits(&self) -> Shifted<T>
        ensures bits { T.number result.bits ≡ 2 ^ T.width - 1 - T.number self.now.bits }
        ensures shift { result.shift ≡ self.now.shift }
    {
        Shifted {
            bits: self.bits.inverted(),
            shift: self.shift,
        }
    }
}

impl<T: Digit> fmt::Display for Shifted<T> {
    ghost output = { λ x. Some (decimal (T.number x.bits)) };

    fn fmt<W: fmt::Write>(&self, f: &mut fmt::Formatter<W>) -> fmt::Result {
        let bits = self.bits.widened();
        write!(f, "{bits}")
    }
}

/// Under the name of the original's type.
impl<T: Digit + fmt::Debug> fmt::Debug for Shifted<T> {
    fn fmt<W: fmt::Write>(&self, f: &mut fmt::Formatter<W>) -> fmt::Result {
        f.debug_struct(T::NAME)
            .field("bits", &self.bits)
            .field("shift", &self.shift)
            .finish()
    }
}
