use crate::fault::Fault;
use crate::words::{Args, Argument};
use condition::condcodes::IntCC;
use operand::imms::digits::Digit;
use operand::imms::{SImm20, Shifted, UImm12};
use operand::reg::{Reg, gpr, vr};

/// An integer register `i` or a float register `f` with its number. Any number up to 255 is taken: whether there is such a register is for
/// the command to say.
fn register(word: &str) -> Option<Reg> {
    let (class, digits) = word.split_at_checked(1)?;
    let number = digits.parse::<u8>().ok()?;
    match class {
        "i" => Some(gpr(number)),
        "f" => Some(vr(number)),
        _ => None,
    }
}

impl Argument for Reg {
    fn read(args: &mut Args) -> Result<Reg, Fault> {
        register(args.word()?).ok_or(Fault::NotRegister)
    }
}

impl Argument for IntCC {
    fn read(args: &mut Args) -> Result<IntCC, Fault> {
        args.word()?.parse().map_err(|_| Fault::NotCondition)
    }
}

impl Argument for UImm12 {
    fn read(args: &mut Args) -> Result<UImm12, Fault> {
        UImm12::maybe_from_u64(args.read()?).ok_or(Fault::OutsideUImm12)
    }
}

impl Argument for SImm20 {
    fn read(args: &mut Args) -> Result<SImm20, Fault> {
        SImm20::maybe_from_i64(args.read()?).ok_or(Fault::OutsideSImm20)
    }
}

/// The bits and the shift.
impl<T: Digit + Argument> Argument for Shifted<T> {
    fn read(args: &mut Args) -> Result<Shifted<T>, Fault> {
        args.read().map(|(bits, shift)| Shifted { bits, shift })
    }
}
