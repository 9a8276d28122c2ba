//! A caller of a section: a routine that is written by a fixed list of calls, and the bytes that closing promises for it.

#![tactic(auto)]

ghost use Rattle.std.specs.Prelude.{◌≡◌, ◌⊎◌, Ok, Err};
ghost use Rattle.refusal.specs.declared.Reason.TheVariants as why;
ghost use Rattle.refusal.specs.Refusals.{refused_at};
ghost use Rattle.address.specs.Convention.{standard};
ghost use Rattle.field.specs.Family.{label_family, relocation_family};
ghost use Rattle.catalogue.specs.Listed.{entries_in};
ghost use Rattle.law.specs.Law.{Run};
ghost use Rattle.section.specs.State.{state};
ghost use Rattle.client.specs.Routine.{Opcodes, routine_bytes};
ghost use Rattle.client.specs.Calls.{at_start, routine_events, routine_state};

use address::access::{Access, MemAccess};
use address::args::{MachMemFlags, MemArg};
use address::frame::Frame;
use catalogue::catalogue::Catalogue;
use families::labels::Labels;
use families::relocations::Relocations;
use form::Form;
use form::instr::{Entry, Instr};
use operand::reg::{Reg, RegClass};
use refusal::Refusal;
use section::section::Section;
use std::alloc::Global;

const BRC: Entry = Entry {
    form: Form::RiC,
    opcode: 0xa74,
};

const LGRL: Entry = Entry {
    form: Form::RilB,
    opcode: 0xc48,
};

const BCR: Entry = Entry {
    form: Form::Rr,
    opcode: 0x07,
};

/// BCR to the address in register 14.
const RETURN: Instr = Instr {
    form: Form::Rr,
    opcode: 0x07,
    operands: [15, 14, 0, 0, 0, 0],
};

/// A catalogue with the routine's opcodes.
fn opcodes(heap: Global) -> Result<Catalogue, Refusal>
    ensures { Opcodes result }
{
    let mut catalogue = Catalogue::new(heap)?;
    catalogue.admit(BRC)?;
    catalogue.admit(LGRL)?;
    catalogue.admit(BCR)?;
    Ok(catalogue)
}

/// LGRL to register 2, of the second doubleword of the table, which is symbol 0.
const LOAD: MemAccess<'static> = MemAccess {
    access: Access::Mem {
        rd: Reg {
            class: RegClass::Int,
            number: 2,
        },
        rx: None,
        rxy: None,
        ril: Some(0xc48),
    },
    may_trap: false,
    mem: MemArg::Symbol {
        name: 0,
        offset: 8,
        flags: MachMemFlags {
            aligned: true,
            trap: 0,
        },
    },
    frame: &Frame::EMPTY,
};

type Code = Section<Labels, Relocations>;

/// The routine's calls, on a section that was opened for it.
fn emit(section: &mut Code, catalogue: &Catalogue, code: &mut [u8]) -> Result<(), Refusal>
    requires { state section.old (entries_in catalogue.now) code.old ≡ at_start }
    ensures accepted { result ≡ Ok tt }
    ensures leaves { state section.new (entries_in catalogue.now) code.new ≡ routine_state }
    ensures run { Run standard label_family relocation_family (state section.old (entries_in catalogue.now) code.old) routine_events (state section.new (entries_in catalogue.now) code.new) }
{
    let promise = section.reserve(code)?;
    let label = promise.label();
    let branch = section.put_to_label(catalogue, code, BRC, 8, label);
    let loaded = section.access(catalogue, code, &LOAD);
    // what an Err hands back cannot be let go, so neither ? nor expect serves
    match section.bind(code, promise) {
        Ok(()) => {}
        Err(_) => unreachable(),
    }
    branch?;
    loaded?;
    section.put(catalogue, code, &RETURN)
}

/// Returns at once where the condition code is 0; else loads the second doubleword of a table that stands 16 bytes from the start, and
/// returns. Refused for want of memory alone.
pub fn routine(heap: Global) -> Result<[u8; 12], Refusal>
    ensures { (result ≡ Ok routine_bytes) ⊎ (result ≡ Err (refused_at 0 why.Memory)) }
{
    let catalogue = opcodes(heap)?;
    let mut code = [0u8; 12];
    let mut section = Code::open(&code, heap)?;
    emit(&mut section, &catalogue, &mut code)?;
    match section.close(&mut code, &[16]) {
        Ok(_) => Ok(code),
        Err(_) => unreachable(),
    }
}

#[cfg(test)]
mod tests {
    use super::*;
    use std::test::Fail;

    // brc 8,.+10; lgrl %r2,.+20; bcr 15,%r14
    #[test]
    fn written(rt: HostRuntime) -> Result<(), Fail> {
        let bytes = routine(rt.alloc()).ok().ok_or("no routine")?;
        assert_eq!(rt;
            bytes,
            [0xa7, 0x84, 0, 5, 0xc4, 0x28, 0, 0, 0, 0x0a, 0x07, 0xfe]
        );
        Ok(())
    }
}
