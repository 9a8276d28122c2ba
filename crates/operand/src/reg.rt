ghost use Rattle.std.specs.Prelude.{◌≡◌};
ghost use Rattle.operand.specs.Registers.{gpr as is_general, vr as is_vector, gpr_or_fpr, fpr, general, vector};

/// The classes of registers. A vector register is a float one.
#[derive(Clone, Copy, PartialEq, Eq, Debug)]
pub enum RegClass {
    Int,
    Float,
}

/// A register: a class and a number. Integer registers 0 to 15 and float registers 0 to 31 exist; any number can be made, and a call that
/// is given a register that does not exist refuses it.
#[derive(Clone, Copy, PartialEq, Eq, Debug)]
pub struct Reg {
    pub class: RegClass,
    pub number: u8,
}

// One line each: a function over classes and limits would be no plainer.

/// The integer register of this number.
pub fn gpr(number: u8) -> Reg
    ensures { result ≡ general number }
{
    Reg {
        class: RegClass::Int,
        number,
    }
}

/// The float register of this number, which is a vector register.
pub fn vr(number: u8) -> Reg
    ensures { result ≡ vector number }
{
    Reg {
        class: RegClass::Float,
        number,
    }
}

/// Whether this is an integer register that exists.
pub fn is_gpr(r: Reg) -> bool
    ensures { result ≡ is_general r }
{
    r.class == RegClass::Int && r.number < 16
}

/// Whether this is a float register that exists.
pub fn is_vr(r: Reg) -> bool
    ensures { result ≡ is_vector r }
{
    r.class == RegClass::Float && r.number < 32
}

/// Whether this is a register of either class below 16.
pub fn is_gpr_or_fpr(r: Reg) -> bool
    ensures { result ≡ gpr_or_fpr r }
{
    r.number < 16
}

/// Whether this is a float register below 16.
pub fn is_fpr(r: Reg) -> bool
    ensures { result ≡ fpr r }
{
    r.class == RegClass::Float && r.number < 16
}
