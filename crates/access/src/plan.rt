ghost use Rattle.std.specs.Prelude.{◌≡◌, [], ◌∷◌, pos, IfOk, Some, None};
ghost use Rattle.refusal.specs.Refusals.{answered};
ghost use Rattle.refusal.specs.Numbers.{wrap};
ghost use Rattle.form.specs.Instr.{instr as instr_of};
ghost use Rattle.address.specs.declared.frame.Frame.{Frame};
ghost use Rattle.address.specs.Convention.{standard};
ghost use Rattle.address.specs.Aimed.{by as by_given};
ghost use Rattle.address.specs.declared.args.MachMemFlags.{MachMemFlags};
ghost use Rattle.address.specs.Address.{bxd12, bxd20, mode, finalize, target_of};
ghost use Rattle.address.specs.Address.{is_constant as constant_in};
ghost use Rattle.address.specs.Access.{permitted, access_instr, load_address_access, data_fits, odd_symbol, plan as plan_of, planning_refusal};
ghost use Rattle.address.specs.Held.{held, helper_of, answer_in, when_ok, listed, items_of};
ghost use Rattle.address_law.specs.Reaching.{Reaching};
ghost use Rattle.access.specs.Written.{stays_relative, at_target, access_at, helper_at};

use address::access::{Access, AccessPlan, Aimed, MemAccess};
use address::args::{Helper, Helpers, MemArg, MemInstType};
use book::target::Target;
use finalize::finalize::finalize_steps;
use form::Form;
use form::instr::{Entry, Instr};
use operand::reg::{Reg, is_gpr, is_gpr_or_fpr, is_vr};
use refusal::Reason;

// Whether the access's own registers and mask are of their kinds; a relative address asks for an integer register.
fn data_fits(access: &Access, relative: bool) -> bool
    ensures { result ≡ data_fits access.now relative }
{
    match *access {
        Access::Mem { rd, .. } if relative => is_gpr(rd),
        Access::Mem { rd, .. } => is_gpr_or_fpr(rd),
        Access::MemRs { rd, rn, .. } => is_gpr_or_fpr(rd) && is_gpr_or_fpr(rn),
        // two arms, since the proof learns a number's range only where its value is read
        Access::MemImm8 { imm: _imm, .. } => true,
        Access::MemImm16 { imm: _imm, .. } => true,
        Access::MemVrx { rd, m3, .. } => is_vr(rd) && m3 < 16,
    }
}

// Whether the address stays relative to the instruction.
fn stays_relative(mem: &MemArg, mi: MemInstType) -> bool
    ensures { (fr : Frame) → result ≡ stays_relative mi (mode standard fr mem.now) }
{
    match *mem {
        MemArg::Label { .. } | MemArg::Constant { .. } => mi.have_pcrel,
        MemArg::Symbol { flags, .. } => {
            mi.have_pcrel && (mi.have_unaligned_pcrel || flags.aligned)
        }
        _ => false,
    }
}

// Whether the registers and the mask of an access and its address are of their kinds.
fn fits(request: &MemAccess) -> bool
    ensures { (fr : Frame) → result ≡ (plan_of standard request.now.access request.now.may_trap request.now.mem fr).fits }
{
    let mi = request.access.permitted(request.may_trap);
    let relative = stays_relative(&request.mem, mi);
    request.mem.registers_fit() && data_fits(&request.access, relative)
}

// Whether it is a symbol with an odd offset.
fn odd_offset(mem: &MemArg) -> bool
    ensures { (fr : Frame) → result ≡ odd_symbol (target_of (mode standard fr mem.now)) }
{
    matches!(*mem, MemArg::Symbol { offset, .. } if offset % 2 != 0)
}

// Whether it names a constant.
fn is_constant(mem: &MemArg) -> bool
    ensures { (fr : Frame) → result ≡ constant_in (mode standard fr mem.now) }
{
    matches!(*mem, MemArg::Constant { .. })
}

// The checks of an access, and what is left of its address.
fn checked(request: &MemAccess, lost_label: bool) -> Result<(Helpers, MemArg), Reason>
    ensures { when_ok answer_in result ≡ answered (planning_refusal standard (plan_of standard request.now.access request.now.may_trap request.now.mem request.now.frame.now) lost_label) (Some (finalize standard (permitted request.now.access request.now.may_trap) request.now.frame.now request.now.mem)) }
{
    if !fits(request) {
        return Err(Reason::Operand);
    }
    let mi = request.access.permitted(request.may_trap);
    let left = finalize_steps(&request.mem, request.frame, mi)?;
    if lost_label {
        return Err(Reason::Label);
    }
    if odd_offset(&request.mem) {
        return Err(Reason::Odd);
    }
    if is_constant(&request.mem) {
        return Err(Reason::Constant);
    }
    Ok(left)
}

// A register as an operand.
fn num(r: Reg) -> i64
    ensures { result ≡ pos r.number }
{
    i64::from(r.number)
}

// One instruction by an opcode that was given.
fn by(opcode: Option<u16>, form: Form, aim: Option<Target>, operands: [i64; 6]) -> Option<Aimed>
    ensures { listed result ≡ by_given opcode aim (λ o. instr_of form o operands) }
{
    opcode.map(|opcode| Aimed {
        instr: Instr::new(Entry::new(form, opcode), operands),
        aim,
    })
}

// The access at a 12-bit displacement: by RX, RS, SI, SIL or VRX.
fn at_short(access: &Access, base: Reg, index: Reg, d: i64) -> Option<Aimed>
    ensures { (f : MachMemFlags) → listed result ≡ access_instr access.now (bxd12 base index d f) }
{
    let (b, x) = (num(base), num(index));
    match *access {
        Access::Mem { rd, rx, .. } => by(rx, Form::Rx, None, [num(rd), b, x, d, 0, 0]),
        Access::MemRs { rd, rn, rs, .. } => by(rs, Form::Rs, None, [num(rd), num(rn), b, d, 0, 0]),
        Access::MemImm8 { imm, si, .. } => {
            by(Some(si), Form::Si, None, [b, d, i64::from(imm), 0, 0, 0])
        }
        Access::MemImm16 { imm, sil } => {
            by(Some(sil), Form::Sil, None, [b, d, i64::from(imm), 0, 0, 0])
        }
        Access::MemVrx { rd, opcode, m3 } => {
            let operands = [num(rd), b, x, d, i64::from(m3), 0];
            by(Some(opcode), Form::Vrx, None, operands)
        }
    }
}

// The access at a 20-bit displacement: by RXY, RSY or SIY.
fn at_long(access: &Access, base: Reg, index: Reg, d: i64) -> Option<Aimed>
    ensures { (f : MachMemFlags) → listed result ≡ access_instr access.now (bxd20 base index d f) }
{
    let (b, x) = (num(base), num(index));
    match *access {
        Access::Mem { rd, rxy, .. } => by(rxy, Form::Rxy, None, [num(rd), b, x, d, 0, 0]),
        Access::MemRs { rd, rn, rsy, .. } => {
            by(rsy, Form::Rsy, None, [num(rd), num(rn), b, d, 0, 0])
        }
        Access::MemImm8 { imm, siy, .. } => {
            by(Some(siy), Form::Siy, None, [b, d, i64::from(imm), 0, 0, 0])
        }
        _ => None,
    }
}

// The access relative to the instruction: by RIL-b.
fn at_target(access: &Access, target: Target) -> Option<Aimed>
    ensures { listed result ≡ at_target access.now target }
{
    match *access {
        Access::Mem { rd, ril, .. } => {
            by(ril, Form::RilB, Some(target), [num(rd), 0, 0, 0, 0, 0])
        }
        _ => None,
    }
}

// The access itself, at the address that is left for it.
fn accessing(access: &Access, mem: &MemArg) -> Option<Aimed>
    ensures { listed result ≡ access_at access.now (held mem.now) }
{
    match *mem {
        MemArg::BXD12 {
            base,
            index,
            disp,
            ..
        } => at_short(access, base, index, i64::from(disp.value())),
        MemArg::BXD20 {
            base,
            index,
            disp,
            ..
        } => at_long(access, base, index, i64::from(disp.value())),
        MemArg::Label { target } => at_target(access, Target::Label(target)),
        MemArg::Symbol { name, offset, .. } => at_target(access, Target::Symbol(name, offset)),
        _ => None,
    }
}

// LA, LAY or LARL.
fn load_address(rd: Reg) -> Access
    ensures { result ≡ load_address_access rd }
{
    Access::Mem {
        rd,
        rx: Some(0x41),
        rxy: Some(0xE371),
        ril: Some(0xC00),
    }
}

// A number modulo 2^32.
fn low_32(imm: i32) -> i64
    ensures { result ≡ pos (wrap 32 imm) }
{
    i64::from(imm.cast_unsigned())
}

// What a helper writes: LGFI, or the loading of an address.
fn helping(helper: Helper) -> Option<Aimed>
    ensures { listed result ≡ helper_at (helper_of helper) }
{
    match helper {
        Helper::Lgfi { rd, imm } => {
            let operands = [num(rd), low_32(imm), 0, 0, 0, 0];
            by(Some(0xC01), Form::RilA, None, operands)
        }
        Helper::LoadAddr { rd, mem } => accessing(&load_address(rd), &mem),
    }
}

/// What an access writes, or why it is refused. `lost_label`: it names a label that is not reserved, or given up.
pub fn plan(request: &MemAccess, lost_label: bool) -> Result<AccessPlan, Reason>
    ensures writes { when_ok items_of result ≡ answered (planning_refusal standard (plan_of standard request.now.access request.now.may_trap request.now.mem request.now.frame.now) lost_label) (plan_of standard request.now.access request.now.may_trap request.now.mem request.now.frame.now).items }
    ensures reaches { IfOk result (λ p. Reaching standard (mode standard request.now.frame.now request.now.mem) (items_of p)) }
{
    let (helpers, left) = checked(request, lost_label)?;
    // what passes the checks has a form, so this refuses nothing
    let access = accessing(&request.access, &left).ok_or(Reason::Form)?;
    Ok(AccessPlan {
        first: helpers.first.and_then(helping),
        second: helpers.second.and_then(helping),
        access,
    })
}
