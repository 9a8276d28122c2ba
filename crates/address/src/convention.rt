ghost use Rattle.std.specs.Prelude.{◌≡◌};
ghost use Rattle.address.specs.Convention.{zero_reg, int_reg, standard};

use operand::reg::{Reg, gpr};

/// The stack's register.
pub const STACK: u8 = 15;

/// The register that helpers set.
pub const TEMPORARY: u8 = 1;

/// The size of the register save area.
pub const REG_SAVE_AREA_SIZE: u32 = 160;

/// The register that reads as zero where it is a base or an index.
pub fn zero_reg() -> Reg
    ensures { result ≡ int_reg zero_reg }
{
    gpr(0)
}

/// The register that helpers set. An access that needs one overwrites it.
pub fn writable_spilltmp_reg() -> Reg
    ensures { result ≡ int_reg standard.temporary }
{
    gpr(TEMPORARY)
}

/// The register that offsets in the frame are counted from.
pub fn stack_reg() -> Reg
    ensures { result ≡ int_reg standard.stack }
{
    gpr(STACK)
}
