use crate::answer::{Answer, Shown};
use address::args::{Helper, Helpers, MachMemFlags, MemArg};
use operand::reg::Reg;
use std::fmt;

impl Answer for MachMemFlags {
    fn write<W: fmt::Write>(&self, f: &mut fmt::Formatter<W>) -> fmt::Result {
        let trap = self.trap;
        if self.aligned {
            write!(f, "a{trap}")
        } else {
            write!(f, "u{trap}")
        }
    }
}

/// A base, an index, a displacement and flags.
fn displaced<W: fmt::Write>(
    base: Reg,
    index: Reg,
    disp: i32,
    flags: MachMemFlags,
    f: &mut fmt::Formatter<W>,
) -> fmt::Result {
    let base = Shown(base);
    let index = Shown(index);
    let flags = Shown(flags);
    write!(f, "{base} {index} {disp} {flags}")
}

impl Answer for MemArg {
    fn write<W: fmt::Write>(&self, f: &mut fmt::Formatter<W>) -> fmt::Result {
        match *self {
            MemArg::BXD12 {
                base,
                index,
                disp,
                flags,
            } => {
                f.write_str("bxd12 ")?;
                displaced(base, index, i32::from(disp.value()), flags, f)
            }
            MemArg::BXD20 {
                base,
                index,
                disp,
                flags,
            } => {
                f.write_str("bxd20 ")?;
                displaced(base, index, disp.value(), flags, f)
            }
            MemArg::RegOffset { reg, off, flags } => {
                let reg = Shown(reg);
                let flags = Shown(flags);
                write!(f, "reg {reg} {off} {flags}")
            }
            MemArg::Label { target } => write!(f, "label {target}"),
            MemArg::Constant { constant } => write!(f, "const {constant}"),
            MemArg::Symbol {
                name,
                offset,
                flags,
            } => {
                let flags = Shown(flags);
                write!(f, "sym {name} {offset} {flags}")
            }
            MemArg::InitialSPOffset { off } => write!(f, "isp {off}"),
            MemArg::IncomingArgOffset { off } => write!(f, "inarg {off}"),
            MemArg::OutgoingArgOffset { off } => write!(f, "outarg {off}"),
            MemArg::SlotOffset { off } => write!(f, "slot {off}"),
            MemArg::SpillOffset { off } => write!(f, "spill {off}"),
        }
    }
}

impl Answer for Helper {
    fn write<W: fmt::Write>(&self, f: &mut fmt::Formatter<W>) -> fmt::Result {
        match *self {
            Helper::Lgfi { rd, imm } => {
                let rd = Shown(rd);
                write!(f, "lgfi {rd} {imm}")
            }
            Helper::LoadAddr { rd, mem } => {
                let rd = Shown(rd);
                let mem = Shown(mem);
                write!(f, "loadaddr {rd} {mem}")
            }
        }
    }
}

/// With `; ` between two.
impl Answer for Helpers {
    fn write<W: fmt::Write>(&self, f: &mut fmt::Formatter<W>) -> fmt::Result {
        if let Some(first) = self.first {
            first.write(f)?;
        }
        if let Some(second) = self.second {
            f.write_str("; ")?;
            second.write(f)?;
        }
        Ok(())
    }
}

/// The helpers, and the address that is left.
impl Answer for (Helpers, MemArg) {
    fn write<W: fmt::Write>(&self, f: &mut fmt::Formatter<W>) -> fmt::Result {
        let helpers = Shown(self.0);
        let mem = Shown(self.1);
        write!(f, "[{helpers}] {mem}")
    }
}
