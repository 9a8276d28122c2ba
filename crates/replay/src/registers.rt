use crate::Answered;
use crate::fault::Fault;
use crate::words::Args;
use enc_vec::rxb::rxb;
use operand::reg::{Reg, is_fpr, is_gpr, is_gpr_or_fpr, is_vr};
use refusal::Reason;

/// The number of a register that is of its kind.
fn number_of(reg: Reg, is_of_kind: bool) -> Result<u8, Reason> {
    is_of_kind.then_some(reg.number).ok_or(Reason::Operand)
}

/// The digit RXB, and the numbers of registers.
pub fn answer(name: &str, args: &mut Args) -> Answered {
    match name {
        "rxb" => args.answer(|(v1, v2, v3, v4)| rxb(v1, v2, v3, v4)),
        "machreg_to_gpr" => args.answer(|reg| number_of(reg, is_gpr(reg))),
        "machreg_to_vr" => args.answer(|reg| number_of(reg, is_vr(reg))),
        "machreg_to_fpr" => args.answer(|reg| number_of(reg, is_fpr(reg))),
        "machreg_to_gpr_or_fpr" => args.answer(|reg| number_of(reg, is_gpr_or_fpr(reg))),
        _ => Err(Fault::UnknownCommand.into()),
    }
}
