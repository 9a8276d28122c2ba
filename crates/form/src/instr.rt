ghost use Rattle.std.specs.Prelude.{◌≡◌};

use crate::Form;

/// A form and an opcode: what a catalogue holds.
#[derive(Clone, Copy, PartialEq, Eq, Debug)]
pub struct Entry {
    pub form: Form,
    pub opcode: u16,
}

/// An instruction: its form, opcode and operands, the unused ones 0. A register is its number alone.
#[derive(Clone, Copy, PartialEq, Eq, Debug)]
pub struct Instr {
    pub form: Form,
    pub opcode: u16,
    pub operands: [i64; 6],
}

impl Entry {
    pub fn new(form: Form, opcode: u16) -> Entry
        ensures form { result.form ≡ form }
        ensures opcode { result.opcode ≡ opcode }
    {
        Entry { form, opcode }
    }
}

impl Instr {
    /// An instruction of a catalogued opcode.
    pub fn new(entry: Entry, operands: [i64; 6]) -> Instr
        ensures form { result.form ≡ entry.form }
        ensures opcode { result.opcode ≡ entry.opcode }
        ensures operands { result.operands ≡ operands }
    {
        let Entry { form, opcode } = entry;
        Instr {
            form,
            opcode,
            operands,
        }
    }

    /// Its form and opcode.
    pub fn entry(&self) -> Entry
        ensures form { result.form ≡ self.now.form }
        ensures opcode { result.opcode ≡ self.now.opcode }
    {
        Entry {
            form: self.form,
            opcode: self.opcode,
        }
    }
}

/// An instruction and the byte at which it stands.
#[derive(Clone, Copy, PartialEq, Eq, Debug)]
pub struct Placed {
    pub place: usize,
    pub instr: Instr,
}
