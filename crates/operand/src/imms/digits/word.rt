ghost use Rattle.std.proofs.Common.{rules};

use crate::imms::digits::Digit;

impl Digit for u32 {
    ghost width = { 32 };

    ghost number = { λ x. x };

    ghost some = { Prim.search rules };

    ghost few = { Prim.search rules };

    const NAME: &'static str = "UImm32Shifted";

    fn bits() -> u8 {
        32
    }

    fn low(value: u64) -> u32 {
        (value & 0xffff_ffff) as u32
    }

    fn widened(self) -> u64 {
        u64::from(self)
    }

    fn inverted(self) -> u32 {
        !self
    }
}
