ghost use Rattle.std.specs.Prelude.{◌≡◌, not, ◌&&◌, IfOk, if◌then◌else◌, Some, None};
ghost use Rattle.refusal.specs.Refusals.{when_some, answered};
ghost use Rattle.address.specs.Convention.{standard};
ghost use Rattle.address.specs.Address.{on_stack, indexed, total, virtual, mode, frame_overflows, must_load, finalize, finalize_refusal, finalize_answer};
ghost use Rattle.address.specs.Held.{held, offset_of, answer_in, helpers_in, when_ok};
ghost use Rattle.finalize.specs.Answers.{Stands};
ghost use Rattle.finalize.specs.Steps.{displacement, temporary_answer, part_in, joined_in, resolve_answer, load_answer, widen_answer, steps_answer};

use address::args::{Helper, Helpers, MachMemFlags, MemArg, MemInstType, Offset};
use address::convention::{REG_SAVE_AREA_SIZE, stack_reg, writable_spilltmp_reg, zero_reg};
use address::frame::Frame;
use operand::imms::{SImm20, UImm12};
use operand::reg::Reg;
use refusal::{Reason, Refusal};

// An offset from the stack's register.
fn on_stack(off: i64, sizes: u64, less: u32) -> Offset
    ensures { virtual result ≡ on_stack standard off sizes less }
{
    Offset {
        base: stack_reg(),
        off,
        sizes,
        less,
        flags: MachMemFlags::trusted(),
    }
}

// The offset that a virtual addressing mode is.
fn offset_of(mem: &MemArg, frame: &Frame) -> Option<Offset>
    ensures { result ≡ offset_of (mode standard frame.now mem.now) }
{
    let slots = u64::from(frame.outgoing_args_size) + u64::from(frame.nominal_sp_offset);
    let initial = u64::from(frame.clobber_size) + u64::from(frame.fixed_frame_storage_size) + slots;
    let save_area = u64::from(REG_SAVE_AREA_SIZE);
    let incoming = u64::from(frame.incoming_args_size) + save_area + initial;
    let spills = u64::from(frame.stackslots_size) + slots;
    let offset = match *mem {
        MemArg::RegOffset { reg, off, flags } => Offset {
            base: reg,
            off,
            sizes: 0,
            less: 0,
            flags,
        },
        MemArg::InitialSPOffset { off } => on_stack(off, initial, 0),
        MemArg::IncomingArgOffset { off } => on_stack(off, incoming, 0),
        MemArg::OutgoingArgOffset { off } => on_stack(off, save_area, frame.outgoing_sp_offset),
        MemArg::SlotOffset { off } => on_stack(off, slots, 0),
        MemArg::SpillOffset { off } => on_stack(off, spills, 0),
        _ => return None,
    };
    Some(offset)
}

// Its sum, unless the sizes reach 2^32 or the sum leaves signed 64 bits.
fn sum_of(v: &Offset) -> Option<i64>
    ensures { result ≡ (if frame_overflows (virtual v.now) then None else Some (total v.now)) }
{
    let sizes = u32::try_from(v.sizes).ok()?;
    let adj = i64::from(sizes) - i64::from(v.less);
    v.off.checked_add(adj)
}

// Two variants, so two functions, which differ in a type.

// A base, an index and a 12-bit displacement.
fn bxd12(base: Reg, index: Reg, disp: UImm12, flags: MachMemFlags) -> MemArg
    ensures { result ≡ MemArg.BXD12 base index disp flags }
{
    MemArg::BXD12 {
        base,
        index,
        disp,
        flags,
    }
}

// A base, an index and a 20-bit displacement.
fn bxd20(base: Reg, index: Reg, disp: SImm20, flags: MachMemFlags) -> MemArg
    ensures { result ≡ MemArg.BXD20 base index disp flags }
{
    MemArg::BXD20 {
        base,
        index,
        disp,
        flags,
    }
}

// The sum as a displacement from the register, if one holds it.
fn displaced(v: &Offset, off: i64) -> Option<MemArg>
    ensures { when_some held result ≡ displacement v.now.base v.now.flags off }
{
    let Offset { base, flags, .. } = *v;
    let index = zero_reg();
    let short = UImm12::maybe_from_i64(off).map(|disp| bxd12(base, index, disp, flags));
    short.or_else(|| SImm20::maybe_from_i64(off).map(|disp| bxd20(base, index, disp, flags)))
}

// The sum in the temporary, as an index to the register.
fn in_temporary(v: &Offset, off: i64) -> Result<(Option<Helper>, MemArg), Reason>
    ensures { when_ok part_in result ≡ temporary_answer standard v.now off }
{
    let rd = writable_spilltmp_reg();
    if v.base.number == rd.number {
        return Err(Reason::Temporary);
    }
    let imm = i32::try_from(off).map_err(|_| Reason::Far)?;
    let helper = Helper::Lgfi { rd, imm };
    Ok((Some(helper), MemArg::reg_plus_reg(v.base, rd, v.flags)))
}

// Resolves an offset: a displacement that fits is taken, a larger one goes into the temporary.
fn resolve_offset(v: &Offset) -> Result<(Option<Helper>, MemArg), Reason>
    ensures { when_ok part_in result ≡ resolve_answer standard (virtual v.now) }
{
    let off = sum_of(v).ok_or(Reason::Frame)?;
    match displaced(v, off) {
        Some(mem) => Ok((None, mem)),
        None => in_temporary(v, off),
    }
}

// Resolves virtual addressing modes.
fn resolve(mem: &MemArg, frame: &Frame) -> Result<(Option<Helper>, MemArg), Reason>
    ensures { when_ok part_in result ≡ resolve_answer standard (mode standard frame.now mem.now) }
{
    let Some(v) = offset_of(mem, frame) else {
        return Ok((None, *mem));
    };
    resolve_offset(&v)
}

// Whether the address has an index that the instruction lacks.
fn lacks_index(index: Reg, mi: MemInstType) -> bool
    ensures { result ≡ (not mi.have_index && indexed index) }
{
    !mi.have_index && index.number != 0
}

// Whether this addressing mode cannot be handled by the instruction.
fn need_load_address(mem: &MemArg, mi: MemInstType) -> bool
    ensures { when_some (must_load mi) (held mem.now) ≡ when_some (λ _. result) (held mem.now) }
{
    match *mem {
        MemArg::Label { .. } | MemArg::Constant { .. } => !mi.have_pcrel,
        MemArg::Symbol { flags, .. } => {
            !mi.have_pcrel || (!mi.have_unaligned_pcrel && !flags.aligned)
        }
        MemArg::BXD12 { index, .. } => lacks_index(index, mi),
        MemArg::BXD20 { index, .. } => !mi.have_d20 || lacks_index(index, mi),
        _ => false,
    }
}

// One after the other, where there are such.
fn in_order(first: Option<Helper>, second: Option<Helper>) -> Helpers
    ensures { helpers_in result.first result.second ≡ joined_in first second }
{
    Helpers {
        first: first.or(second),
        second: first.and(second),
    }
}

// Loads the address into the temporary where the instruction cannot handle it.
fn load(first: Option<Helper>, mem: MemArg, mi: MemInstType) -> (Helpers, MemArg)
    ensures { answer_in result ≡ load_answer standard mi (part_in (first, mem)) }
{
    if !need_load_address(&mem, mi) {
        return (in_order(first, None), mem);
    }
    let rd = writable_spilltmp_reg();
    let flags = mem.get_flags();
    let helper = Helper::LoadAddr { rd, mem };
    (in_order(first, Some(helper)), MemArg::reg(rd, flags))
}

// Converts a 12-bit displacement to 20 bits if required.
fn widen(mem: MemArg, mi: MemInstType) -> Result<MemArg, Reason>
    ensures { when_ok held result ≡ widen_answer mi (held mem) }
{
    match mem {
        MemArg::BXD12 { .. } | MemArg::BXD20 { .. } if !(mi.have_d12 || mi.have_d20) => {
            Err(Reason::Form)
        }
        MemArg::BXD12 {
            base,
            index,
            disp,
            flags,
        } if !mi.have_d12 => {
            let disp = SImm20::from_uimm12(disp);
            Ok(bxd20(base, index, disp, flags))
        }
        _ => Ok(mem),
    }
}

/// The steps of `mem_finalize` for an address whose registers are known to exist, with the bare reason.
pub fn finalize_steps(
    mem: &MemArg,
    frame: &Frame,
    mi: MemInstType,
) -> Result<(Helpers, MemArg), Reason>
    ensures { when_ok answer_in result ≡ steps_answer standard mi frame.now mem.now }
{
    let (first, mem) = resolve(mem, frame)?;
    let (helpers, mem) = load(first, mem, mi);
    Ok((helpers, widen(mem, mi)?))
}

// The checks of an address, and what is left of it.
fn checked(mem: &MemArg, frame: &Frame, mi: MemInstType) -> Result<(Helpers, MemArg), Reason>
    ensures { when_ok answer_in result ≡ answered (finalize_refusal standard mi frame.now mem.now) (Some (finalize standard mi frame.now mem.now)) }
{
    if !mem.registers_fit() {
        return Err(Reason::Operand);
    }
    finalize_steps(mem, frame, mi)
}

/// Memory addressing mode finalization: converts "special" modes, offsets of any size, into real addressing modes, and a mode that the
/// instruction lacks into one that it has, by at most two helper instructions that come immediately before it. Its parameters are the original's.
pub fn mem_finalize(
    mem: &MemArg,
    frame: &Frame,
    mi: MemInstType,
) -> Result<(Helpers, MemArg), Refusal>
    ensures answer { when_ok answer_in result ≡ when_ok (λ x. Some x) (finalize_answer standard mi frame.now mem.now) }
    ensures stands { IfOk result (λ p. Stands standard mi (mode standard frame.now mem.now) p) }
{
    checked(mem, frame, mi).map_err(|reason| Refusal::at(0, reason))
}
