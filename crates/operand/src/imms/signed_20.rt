ghost use Rattle.std.specs.Prelude.{◌≡◌, Some};
ghost use Rattle.std.specs.Option.{option_map};
ghost use Rattle.std.specs.Fmt.{signed_decimal as written};
ghost use Rattle.refusal.specs.Numbers.{twos, wrap};
ghost use Rattle.operand.specs.Imms.{number_12, number_20, if_within};

use crate::imms::{SImm20, UImm12};
use std::fmt;

impl SImm20 {
    /// The immediate of this value, if there is one.
    pub fn maybe_from_i64(value: i64) -> Option<SImm20>
        ensures { option_map number_20 result ≡ if_within (twos 20) value }
    {
        if value >= -524288 && value < 524288 {
            Some(SImm20 {
                value: value as i32,
            })
        } else {
            None
        }
    }

    /// The same value with a sign.
    pub fn from_uimm12(value: UImm12) -> SImm20
        ensures { result.value ≡ number_12 value }
    {
        SImm20 {
            value: value.bits() as i32,
        }
    }

    /// Bits for encoding.
    pub fn bits(&self) -> u32
        ensures { result ≡ wrap 20 self.now.value }
    {
        let encoded = self.value.cast_unsigned();
        encoded & 0xfffff
    }

    /// The value as a number. An addition to Cranelift's calls.
    pub fn value(&self) -> i32
        ensures { result ≡ self.now.value }
    {
        self.value
    }
}

impl fmt::Display for SImm20 {
    ghost output = { λ x. Some (written x.value) };

    fn fmt<W: fmt::Write>(&self, f: &mut fmt::Formatter<W>) -> fmt::Result {
        let value = self.value;
        write!(f, "{value}")
    }
}
