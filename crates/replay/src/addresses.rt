use crate::answer::WrittenPlan;
use crate::fault::Fault;
use crate::words::{Args, Argument};
use crate::{Answered, State};
use access::plan::plan;
use address::access::{Access, MemAccess};
use address::args::{MemArg, MemInstType};
use address::frame::Frame;
use finalize::finalize::mem_finalize;
use refusal::Reason;

/// What an access writes. Every label is taken to be reserved.
fn planned(request: &MemAccess) -> Result<WrittenPlan, Reason> {
    WrittenPlan::new(&plan(request, false)?)
}

/// The access of a command, without its address.
fn access_of(name: &str, args: &mut Args) -> Result<Access, Fault> {
    Ok(match name {
        "mem_emit" => Access::Mem {
            rd: args.read()?,
            rx: args.read()?,
            rxy: args.read()?,
            ril: args.read()?,
        },
        "mem_rs_emit" => Access::MemRs {
            rd: args.read()?,
            rn: args.read()?,
            rs: args.read()?,
            rsy: args.read()?,
        },
        "mem_imm8_emit" => Access::MemImm8 {
            imm: args.read()?,
            si: args.read()?,
            siy: args.read()?,
        },
        "mem_imm16_emit" => Access::MemImm16 {
            imm: args.read()?,
            sil: args.read()?,
        },
        "mem_vrx_emit" => Access::MemVrx {
            rd: args.read()?,
            opcode: args.read()?,
            m3: args.read()?,
        },
        _ => return Err(Fault::UnknownCommand),
    })
}

/// What is left of an address, behind its helpers.
fn finalized(frame: &Frame, args: &mut Args) -> Answered {
    args.answer(|(mi, mem): (MemInstType, MemArg)| mem_finalize(&mem, frame, mi))
}

/// Accesses, finalized and encoded.
fn emit(frame: &Frame, name: &str, args: &mut Args) -> Answered {
    let access = access_of(name, args)?;
    args.answer(move |(may_trap, mem)| {
        planned(&MemAccess {
            access,
            may_trap,
            mem,
            frame,
        })
    })
}

/// Addresses, in the frame that the last `state` has set, and accesses to them.
pub fn answer(state: &mut State, name: &str, args: &mut Args) -> Answered {
    match name {
        "state" => args.answer(|frame| state.frame = frame),
        "memarg_reg" => args.answer(|(reg, flags)| MemArg::reg(reg, flags)),
        "memarg_reg_plus_reg" => args.answer(|(a, b, flags)| MemArg::reg_plus_reg(a, b, flags)),
        "memarg_reg_plus_off" => args.answer(|(a, off, flags)| MemArg::reg_plus_off(a, off, flags)),
        "memarg_get_flags" => args.answer(|mem: MemArg| mem.get_flags()),
        "mem_finalize" => finalized(&state.frame, args),
        _ => emit(&state.frame, name, args),
    }
}
