ghost use Rattle.std.specs.Prelude.{◌≡◌};
ghost use Rattle.address.specs.Aimed.{size_of_all};
ghost use Rattle.address.specs.Access.{permitted, opcodes, entry_for};
ghost use Rattle.address.specs.Held.{listed, all_listed, items_of};

use crate::args::{MemArg, MemInstType};
use crate::frame::Frame;
use book::target::Target;
use form::Form;
use form::instr::{Entry, Instr};
use operand::reg::Reg;

/// An instruction that accesses memory, with the opcodes that it may be written by.
#[derive(Clone, Copy, PartialEq, Eq, Debug)]
pub enum Access {
    /// By RX, RXY or RIL-b.
    Mem {
        rd: Reg,
        rx: Option<u16>,
        rxy: Option<u16>,
        ril: Option<u16>,
    },
    /// By RS or RSY.
    MemRs {
        rd: Reg,
        rn: Reg,
        rs: Option<u16>,
        rsy: Option<u16>,
    },
    /// By SI or SIY.
    MemImm8 {
        imm: u8,
        si: u16,
        siy: u16,
    },
    /// By SIL.
    MemImm16 {
        imm: i16,
        sil: u16,
    },
    /// By VRX, with a mask.
    MemVrx {
        rd: Reg,
        opcode: u16,
        m3: u8,
    },
}

/// An access to memory: the instruction, whether it may trap, the address, and the frame that it is counted in.
#[derive(Clone, Copy, PartialEq, Eq, Debug)]
pub struct MemAccess<'a> {
    pub access: Access,
    pub may_trap: bool,
    pub mem: MemArg,
    pub frame: &'a Frame,
}

// No addressing: what an access has of the kinds that it does not name.
const NO_ADDRESSING: MemInstType = MemInstType {
    have_d12: false,
    have_d20: false,
    have_pcrel: false,
    have_unaligned_pcrel: false,
    have_index: false,
};

// An opcode that was given, under its form.
fn entry_for(form: Form, opcode: Option<u16>) -> Option<Entry>
    ensures { listed result ≡ entry_for form opcode }
{
    opcode.map(|opcode| Entry::new(form, opcode))
}

impl Access {
    /// What addressing it has, by the opcodes that are given. What may trap is not addressed relatively unless it is aligned.
    pub fn permitted(&self, may_trap: bool) -> MemInstType
        ensures { result ≡ permitted self.now may_trap }
    {
        match *self {
            Access::Mem { rx, rxy, ril, .. } => MemInstType {
                have_d12: rx.is_some(),
                have_d20: rxy.is_some(),
                have_pcrel: ril.is_some(),
                have_unaligned_pcrel: ril.is_some() && !may_trap,
                have_index: true,
            },
            Access::MemRs { rs, rsy, .. } => MemInstType {
                have_d12: rs.is_some(),
                have_d20: rsy.is_some(),
                ..NO_ADDRESSING
            },
            Access::MemImm8 { .. } => MemInstType {
                have_d12: true,
                have_d20: true,
                ..NO_ADDRESSING
            },
            Access::MemImm16 { .. } => MemInstType {
                have_d12: true,
                ..NO_ADDRESSING
            },
            Access::MemVrx { .. } => MemInstType {
                have_d12: true,
                have_index: true,
                ..NO_ADDRESSING
            },
        }
    }

    /// The opcodes that are given, each under its form.
    pub fn opcodes(&self) -> [Option<Entry>; 3]
        ensures { all_listed result ≡ opcodes self.now }
    {
        match *self {
            Access::Mem { rx, rxy, ril, .. } => [
                entry_for(Form::Rx, rx),
                entry_for(Form::Rxy, rxy),
                entry_for(Form::RilB, ril),
            ],
            Access::MemRs { rs, rsy, .. } => {
                [entry_for(Form::Rs, rs), entry_for(Form::Rsy, rsy), None]
            }
            Access::MemImm8 { si, siy, .. } => [
                entry_for(Form::Si, Some(si)),
                entry_for(Form::Siy, Some(siy)),
                None,
            ],
            Access::MemImm16 { sil, .. } => [entry_for(Form::Sil, Some(sil)), None, None],
            Access::MemVrx { opcode, .. } => [entry_for(Form::Vrx, Some(opcode)), None, None],
        }
    }
}

/// An instruction to write, and what it is aimed at; an aimed one has distance 0 as yet.
#[derive(Clone, Copy, PartialEq, Eq, Debug)]
pub struct Aimed {
    pub instr: Instr,
    pub aim: Option<Target>,
}

/// What an access writes: at most two helpers, in order, and then the access.
#[derive(Clone, Copy, PartialEq, Eq, Debug)]
pub struct AccessPlan {
    pub first: Option<Aimed>,
    pub second: Option<Aimed>,
    pub access: Aimed,
}

// How many bytes an instruction has, if there is one.
fn size_of(item: Option<Aimed>) -> usize
    ensures { result ≡ size_of_all (listed item) }
{
    item.map_or(0, |item| item.instr.form.size())
}

impl AccessPlan {
    /// How many bytes it writes.
    pub fn size(&self) -> usize
        ensures { result ≡ size_of_all (items_of self.now) }
    {
        size_of(self.first) + size_of(self.second) + size_of(Some(self.access))
    }
}
