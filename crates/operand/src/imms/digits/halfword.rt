ghost use Rattle.std.proofs.Common.{rules};

use crate::imms::digits::Digit;

impl Digit for u16 {
    ghost width = { 16 };

    ghost number = { λ x. x };

    ghost some = { Prim.search rules };

    ghost few = { Prim.search rules };

    const NAME: &'static str = "UImm16Shifted";

    fn bits() -> u8 {
        16
    }

    fn low(value: u64) -> u16 {
        (value & 0xffff) as u16
    }

    fn widened(self) -> u64 {
        u64::from(self)
    }

    fn inverted(self) -> u16 {
        !self
    }
}
