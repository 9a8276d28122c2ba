ghost use Rattle.std.specs.Prelude.{◌≡◌, pos, Some, decimal};
ghost use Rattle.std.specs.Option.{option_map};
ghost use Rattle.refusal.specs.Numbers.{plain};
ghost use Rattle.operand.specs.Imms.{number_12, number_20, if_within};

use crate::imms::{SImm20, UImm12};
use std::fmt;

impl UImm12 {
    /// The immediate of this value, if there is one.
    pub fn maybe_from_u64(value: u64) -> Option<UImm12>
        ensures { option_map number_12 result ≡ if_within (plain 12) (pos value) }
    {
        if value < 4096 {
            Some(UImm12 {
                value: value as u16,
            })
        } else {
            None
        }
    }

    /// The same of a signed value. An addition to Cranelift's calls.
    pub fn maybe_from_i64(value: i64) -> Option<UImm12>
        ensures { option_map number_12 result ≡ if_within (plain 12) value }
    {
        if value < 0 {
            return None;
        }
        Self::maybe_from_u64(value as u64)
    }

    /// The same value without a sign, if there is such an immediate.
    pub fn maybe_from_simm20(value: SImm20) -> Option<UImm12>
        ensures { option_map number_12 result ≡ if_within (plain 12) (number_20 value) }
    {
        let SImm20 { value } = value;
        if value >= 0 {
            Self::maybe_from_u64(value as u64)
        } else {
            None
        }
    }

    /// A zero immediate of this format.
    pub fn zero() -> UImm12
        ensures { result.value ≡ 0 }
    {
        UImm12 { value: 0 }
    }

    /// Bits for encoding.
    pub fn bits(&self) -> u32
        ensures { result ≡ self.now.value }
    {
        u32::from(self.value)
    }

    /// The value as a number. An addition to Cranelift's calls.
    pub fn value(&self) -> u16
        ensures { result ≡ self.now.value }
    {
        self.value
    }
}

impl fmt::Display for UImm12 {
    ghost output = { λ x. Some (decimal x.value) };

    fn fmt<W: fmt::Write>(&self, f: &mut fmt::Formatter<W>) -> fmt::Result {
        let value = self.value;
        write!(f, "{value}")
    }
}
