use crate::Answered;
use crate::fault::Fault;
use crate::words::Args;
use condition::cond::Cond;
use condition::condcodes::{CondCode, IntCC};

/// Conditions of branches.
pub fn mask(name: &str, args: &mut Args) -> Answered {
    match name {
        "cond_from_mask" => args.answer(|mask| Cond::from_mask(mask)),
        "cond_invert" => args.answer(|mask| Cond::from_mask(mask).map(|cond| cond.invert())),
        "cond_from_intcc" => args.answer(|cc| Cond::from_intcc(cc)),
        _ => Err(Fault::UnknownCommand.into()),
    }
}

/// Comparisons of integers.
pub fn comparison(name: &str, args: &mut Args) -> Answered {
    match name {
        "intcc_all" => args.answer(|()| IntCC::all()),
        "intcc_complement" => args.answer(|cc: IntCC| cc.complement()),
        "intcc_swap_args" => args.answer(|cc: IntCC| cc.swap_args()),
        "intcc_without_equal" => args.answer(|cc: IntCC| cc.without_equal()),
        "intcc_unsigned" => args.answer(|cc: IntCC| cc.unsigned()),
        _ => Err(Fault::UnknownCommand.into()),
    }
}
