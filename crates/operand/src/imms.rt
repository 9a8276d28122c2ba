ghost use Rattle.std.specs.Prelude.{◌<◌, pos, negsuc, ◌≤ℤ◌, ◌<ℤ◌};

pub mod digits;
mod signed_20;
mod unsigned_12;

/// An unsigned 12-bit immediate.
#[derive(Clone, Copy, PartialEq, Eq, Debug)]
pub struct UImm12 {
    value: u16,
    ghost small: { value < 4096 },
}

/// A signed 20-bit immediate.
#[derive(Clone, Copy, PartialEq, Eq, Debug)]
pub struct SImm20 {
    value: i32,
    ghost low: { negsuc 524287 ≤ℤ value },
    ghost high: { value <ℤ pos 524288 },
}

/// An immediate of one digit that is shifted left by whole digits.
#[derive(Clone, Copy, PartialEq, Eq)]
pub struct Shifted<T> {
    pub bits: T,
    /// The result is `bits` shifted left by so many digits.
    pub shift: u8,
}

/// A 16-bit immediate with a {0,16,32,48}-bit shift.
pub type UImm16Shifted = Shifted<u16>;

/// A 32-bit immediate with a {0,32}-bit shift.
pub type UImm32Shifted = Shifted<u32>;
