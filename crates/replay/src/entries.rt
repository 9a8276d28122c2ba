use crate::Answered;
use crate::fault::Fault;
use crate::words::{Args, Bytes};
use catalogue::catalogue::Catalogue;
use form::instr::{Entry, Placed};
use refusal::Refusal;

/// The instruction that the bytes begin with, if there are any.
fn first_in(catalogue: &Catalogue, bytes: Option<Bytes>) -> Result<Option<Placed>, Refusal> {
    let Some(bytes) = bytes else {
        return Ok(None);
    };
    let (answer, _) = catalogue.read_one(bytes.as_slice(), 0);
    answer
}

/// The catalogue of opcodes.
pub fn answer(catalogue: &mut Catalogue, name: &str, args: &mut Args) -> Answered {
    match name {
        "admit" => args.answer(|(form, opcode)| catalogue.admit(Entry::new(form, opcode))),
        "read" => args.answer(|bytes| first_in(catalogue, bytes)),
        _ => Err(Fault::UnknownCommand.into()),
    }
}
