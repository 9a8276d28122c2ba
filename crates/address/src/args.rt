ghost use Rattle.std.specs.Prelude.{◌≡◌, pos, Some};
ghost use Rattle.address.specs.Convention.{zero_reg, int_reg, Convention};
ghost use Rattle.address.specs.Address.{trusted, bxd12, mode, flags_in, target_of, registers_fit};
ghost use Rattle.address.specs.Held.{held};
ghost use Rattle.address.specs.declared.frame.Frame.{Frame};

use crate::convention::zero_reg;
use book::target::Target;
use operand::imms::{SImm20, UImm12};
use operand::reg::{Reg, is_gpr};

/// Whether an address is aligned, and the trap code of an access to it, 0 for none.
#[derive(Clone, Copy, PartialEq, Eq, Debug)]
pub struct MachMemFlags {
    pub aligned: bool,
    pub trap: u8,
}

impl MachMemFlags {
    /// Aligned, and never a trap.
    pub fn trusted() -> MachMemFlags
        ensures { result ≡ trusted }
    {
        MachMemFlags {
            aligned: true,
            trap: 0,
        }
    }
}

/// A memory argument to load/store, encapsulating the possible addressing modes.
#[derive(Clone, Copy, PartialEq, Eq, Debug)]
pub enum MemArg {
    //
    // Real addressing modes:
    //
    /// Base register, index register, and 12-bit unsigned displacement.
    BXD12 {
        base: Reg,
        index: Reg,
        disp: UImm12,
        flags: MachMemFlags,
    },

    /// Base register, index register, and 20-bit signed displacement.
    BXD20 {
        base: Reg,
        index: Reg,
        disp: SImm20,
        flags: MachMemFlags,
    },

    /// PC-relative reference to a label.
    Label {
        target: usize,
    },

    /// PC-relative reference to a constant pool entry.
    Constant {
        constant: usize,
    },

    /// PC-relative reference to a near symbol.
    Symbol {
        name: usize,
        offset: i32,
        flags: MachMemFlags,
    },

    //
    // Virtual addressing modes, an offset of any size:
    //
    /// Offset from a register.
    RegOffset {
        reg: Reg,
        off: i64,
        flags: MachMemFlags,
    },

    /// Offset from the stack pointer at function entry.
    InitialSPOffset {
        off: i64,
    },

    /// Offset from the top of the incoming argument area.
    IncomingArgOffset {
        off: i64,
    },

    /// Offset from the bottom of the outgoing argument area.
    OutgoingArgOffset {
        off: i64,
    },

    /// Offset into the slot area of the stack, which lies just above the outgoing argument area.
    SlotOffset {
        off: i64,
    },

    /// Offset into the spill area of the stack.
    SpillOffset {
        off: i64,
    },
}

impl MemArg {
    /// Memory reference using an address in a register.
    pub fn reg(reg: Reg, flags: MachMemFlags) -> MemArg
        ensures { held result ≡ Some (bxd12 reg (int_reg zero_reg) (pos 0) flags) }
    {
        MemArg::reg_plus_reg(reg, zero_reg(), flags)
    }

    /// Memory reference using the sum of two registers as an address.
    pub fn reg_plus_reg(reg1: Reg, reg2: Reg, flags: MachMemFlags) -> MemArg
        ensures { held result ≡ Some (bxd12 reg1 reg2 (pos 0) flags) }
    {
        MemArg::BXD12 {
            base: reg1,
            index: reg2,
            disp: UImm12::zero(),
            flags,
        }
    }

    /// Memory reference using the sum of a register and an offset as address.
    pub fn reg_plus_off(reg: Reg, off: i64, flags: MachMemFlags) -> MemArg
        ensures { result ≡ MemArg.RegOffset reg off flags }
    {
        MemArg::RegOffset { reg, off, flags }
    }

    /// The flags that it carries; where it carries none it is trusted.
    pub fn get_flags(&self) -> MachMemFlags
        ensures { (C : Convention) (fr : Frame) → result ≡ flags_in (mode C fr self.now) }
    {
        match *self {
            MemArg::BXD12 { flags, .. }
            | MemArg::BXD20 { flags, .. }
            | MemArg::Symbol { flags, .. }
            | MemArg::RegOffset { flags, .. } => flags,
            _ => MachMemFlags::trusted(),
        }
    }

    /// Whether its registers are integer registers that exist.
    pub fn registers_fit(&self) -> bool
        ensures { result ≡ registers_fit self.now }
    {
        match *self {
            MemArg::BXD12 { base, index, .. } | MemArg::BXD20 { base, index, .. } => {
                is_gpr(base) && is_gpr(index)
            }
            MemArg::RegOffset { reg, .. } => is_gpr(reg),
            _ => true,
        }
    }

    /// The label or symbol that it names, if any.
    pub fn target(&self) -> Option<Target>
        ensures { (C : Convention) (fr : Frame) → result ≡ target_of (mode C fr self.now) }
    {
        match *self {
            MemArg::Label { target } => Some(Target::Label(target)),
            MemArg::Symbol { name, offset, .. } => Some(Target::Symbol(name, offset)),
            _ => None,
        }
    }
}

/// What addressing an instruction has.
#[derive(Clone, Copy, PartialEq, Eq, Debug)]
pub struct MemInstType {
    /// A 12-bit unsigned displacement.
    pub have_d12: bool,
    /// A 20-bit signed displacement.
    pub have_d20: bool,
    /// PC-relative addressing.
    pub have_pcrel: bool,
    /// PC-relative addressing of what may be unaligned.
    pub have_unaligned_pcrel: bool,
    /// An index register.
    pub have_index: bool,
}

/// An offset from a register, of any size: `off` + `sizes` − `less`.
#[derive(Clone, Copy, PartialEq, Eq, Debug)]
pub struct Offset {
    pub base: Reg,
    pub off: i64,
    pub sizes: u64,
    pub less: u32,
    pub flags: MachMemFlags,
}

/// An instruction that comes before an access and sets a register for it.
#[derive(Clone, Copy, PartialEq, Eq, Debug)]
pub enum Helper {
    /// The register becomes this number.
    Lgfi { rd: Reg, imm: i32 },
    /// The register becomes this address.
    LoadAddr { rd: Reg, mem: MemArg },
}

/// At most two helpers, in order: no second one without a first. A record of two, since no memory is asked for.
#[derive(Clone, Copy, PartialEq, Eq, Debug)]
pub struct Helpers {
    pub first: Option<Helper>,
    pub second: Option<Helper>,
}
