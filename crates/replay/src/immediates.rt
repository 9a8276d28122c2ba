use crate::Answered;
use crate::fault::Fault;
use crate::words::{Args, Argument};
use operand::imms::digits::Digit;
use operand::imms::{SImm20, Shifted, UImm12};

/// Immediates of 12 bits, and of 20 bits with a sign.
pub fn displacement(name: &str, args: &mut Args) -> Answered {
    match name {
        "uimm12_zero" => args.answer(|()| UImm12::zero()),
        "uimm12_maybe_from_u64" => args.answer(|value| UImm12::maybe_from_u64(value)),
        "uimm12_maybe_from_simm20" => args.answer(|value| UImm12::maybe_from_simm20(value)),
        "simm20_maybe_from_i64" => args.answer(|value| SImm20::maybe_from_i64(value)),
        "simm20_from_uimm12" => args.answer(|value| SImm20::from_uimm12(value)),
        _ => Err(Fault::UnknownCommand.into()),
    }
}

/// Immediates of a digit with a shift.
pub fn shifted<T: Digit + Argument>(call: &str, args: &mut Args) -> Answered {
    match call {
        "maybe_from_u64" => args.answer(|value| Shifted::<T>::maybe_from_u64(value)),
        "maybe_with_shift" => args.answer(|(imm, shift)| {
            Shifted::<T>::maybe_with_shift(imm, shift)
        }),
        "negate_bits" => args.answer(|imm: Shifted<T>| imm.negate_bits()),
        _ => Err(Fault::UnknownCommand.into()),
    }
}
