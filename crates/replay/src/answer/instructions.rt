use crate::answer::Answer;
use crate::forms::name_of;
use form::instr::{Instr, Placed};
use std::fmt;

/// Two hexadecimal digits a byte.
pub fn hex<W: fmt::Write>(bytes: &[u8], f: &mut fmt::Formatter<W>) -> fmt::Result {
    for byte in bytes {
        write!(f, "{byte:02x}")?;
    }
    Ok(())
}

/// An encoder's answer: the bytes, unless the number behind them refuses.
impl<const N: usize> Answer for ([u8; N], u8) {
    fn write<W: fmt::Write>(&self, f: &mut fmt::Formatter<W>) -> fmt::Result {
        let (bytes, refused) = self;
        if *refused == 0 {
            hex(bytes, f)
        } else {
            write!(f, "refused {refused}")
        }
    }
}

/// The form, the opcode and the six operands.
impl Answer for Instr {
    fn write<W: fmt::Write>(&self, f: &mut fmt::Formatter<W>) -> fmt::Result {
        let form = name_of(self.form);
        let opcode = self.opcode;
        write!(f, "{form} 0x{opcode:x}")?;
        for operand in &self.operands {
            write!(f, " {operand}")?;
        }
        Ok(())
    }
}

/// The instruction that was read.
impl Answer for Placed {
    fn write<W: fmt::Write>(&self, f: &mut fmt::Formatter<W>) -> fmt::Result {
        self.instr.write(f)
    }
}
