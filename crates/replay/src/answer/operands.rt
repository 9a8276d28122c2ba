use crate::answer::Answer;
use condition::cond::Cond;
use condition::condcodes::IntCC;
use operand::imms::digits::Digit;
use operand::imms::{SImm20, Shifted, UImm12};
use operand::reg::{Reg, RegClass};
use std::fmt;

impl Answer for u8 {
    fn write<W: fmt::Write>(&self, f: &mut fmt::Formatter<W>) -> fmt::Result {
        write!(f, "{self}")
    }
}

impl Answer for UImm12 {
    fn write<W: fmt::Write>(&self, f: &mut fmt::Formatter<W>) -> fmt::Result {
        let bits = self.bits();
        write!(f, "{bits}")
    }
}

impl Answer for SImm20 {
    fn write<W: fmt::Write>(&self, f: &mut fmt::Formatter<W>) -> fmt::Result {
        let bits = self.bits();
        write!(f, "{bits}")
    }
}

/// The bits and the shift.
impl<T: Digit> Answer for Shifted<T> {
    fn write<W: fmt::Write>(&self, f: &mut fmt::Formatter<W>) -> fmt::Result {
        let shift = self.shift;
        write!(f, "{self} {shift}")
    }
}

impl Answer for Cond {
    fn write<W: fmt::Write>(&self, f: &mut fmt::Formatter<W>) -> fmt::Result {
        self.bits().write(f)
    }
}

impl Answer for IntCC {
    fn write<W: fmt::Write>(&self, f: &mut fmt::Formatter<W>) -> fmt::Result {
        write!(f, "{self}")
    }
}

/// With a blank between each two.
impl<'a> Answer for &'a [IntCC] {
    fn write<W: fmt::Write>(&self, f: &mut fmt::Formatter<W>) -> fmt::Result {
        for (i, cc) in self.iter().enumerate() {
            if i > 0 {
                f.write_str(" ")?;
            }
            cc.write(f)?;
        }
        Ok(())
    }
}

impl Answer for Reg {
    fn write<W: fmt::Write>(&self, f: &mut fmt::Formatter<W>) -> fmt::Result {
        let number = self.number;
        match self.class {
            RegClass::Int => write!(f, "i{number}"),
            RegClass::Float => write!(f, "f{number}"),
        }
    }
}
