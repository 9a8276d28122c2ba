ghost use Rattle.std.specs.Prelude.{◌<◌};

mod calls;
mod display;

/// Condition for conditional branches: the condition codes on which to branch.
#[derive(Clone, Copy, PartialEq, Eq, Debug)]
pub struct Cond {
    mask: u8,
    ghost small: { mask < 16 },
}
