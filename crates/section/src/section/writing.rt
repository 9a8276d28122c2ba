ghost use Rattle.std.specs.Prelude.{◌≡◌, List, [], ◌∷◌, length, Some};
ghost use Rattle.refusal.specs.Refusals.{first_refusal};
ghost use Rattle.form.specs.Instr.{instr};
ghost use Rattle.form.specs.declared.instr.Entry.{Entry};
ghost use Rattle.book.specs.declared.target.Target.TheVariants.{Label as to_label};
ghost use Rattle.catalogue.specs.Listed.{entries_in};
ghost use Rattle.law.specs.Section.{Call, Puts, PutsToLabel, branches};
ghost use Rattle.section.specs.State.{books_of, state};
ghost use Rattle.section.specs.Extended.{aim_checks, extended};

use crate::section::Section;
use book::target::Target;
use catalogue::catalogue::Catalogue;
use codec::encode::Encoded;
use form::Form;
use form::instr::{Entry, Instr};
use refusal::{Reason, Refusal};

/// Whether a form is of the branches relative to the instruction.
fn is_branch(form: Form) -> bool
    ensures { result ≡ branches form }
{
    matches!(form, Form::RiB | Form::RiC | Form::RilB | Form::RilC)
}

/// An instruction of whose operands only the first is not 0.
fn lone(entry: Entry, first: i64) -> Instr
    ensures { result ≡ instr entry.form entry.opcode (first ∷ []) }
{
    Instr::new(entry, [first, 0, 0, 0, 0, 0])
}

impl<L, S> Section<L, S> {
    // Catalogue and buffer are the caller's, and lent anew at each call.

    /// Writes a catalogued instruction at the end. Refused by BUFFER, MISFIT, OPCODE, OPERAND and ROOM.
    pub fn put(
        &mut self,
        catalogue: &Catalogue,
        code: &mut [u8],
        instr: &Instr,
    ) -> Result<(), Refusal>
        ensures step { Puts (state self.old (entries_in catalogue.now) code.old) instr.now.form instr.now.opcode instr.now.operands result (state self.new (entries_in catalogue.now) code.new) }
        ensures room { self.new.room ≡ self.old.room }
    {
        if self.is_other(code) {
            return Err(Refusal::at(self.len, Reason::Buffer));
        }
        let encoded = catalogue.write(self.len, instr)?;
        self.append(code, &encoded, None)
    }

    /// Writes a branch at the end, aimed at a label: FORM, LABEL, FULL and ROOM.
    fn branch(
        &mut self,
        code: &mut [u8],
        form: Form,
        encoded: &Encoded,
        label: usize,
    ) -> Result<(), Refusal>
        requires { length code.old ≡ self.old.room }
        ensures { (es : List Entry) → Call (first_refusal (aim_checks (books_of self.old) form label (length encoded.now))) tt (state self.old es code.old) (extended (state self.old es code.old) encoded.now (Some (to_label label))) result (state self.new es code.new) }
    {
        if !is_branch(form) {
            return Err(Refusal::at(self.len, Reason::Form));
        }
        if !self.labels.slot(label).is_usable() {
            return Err(Refusal::at(self.len, Reason::Label));
        }
        self.append(code, encoded, Some(Target::Label(label)))
    }

    /// Writes a catalogued branch at the end, by its first operand and the label that it is to reach. Refused by BUFFER, MISFIT, OPCODE,
    /// OPERAND, FORM, LABEL, FULL and ROOM.
    pub fn put_to_label(
        &mut self,
        catalogue: &Catalogue,
        code: &mut [u8],
        entry: Entry,
        first: i64,
        label: usize,
    ) -> Result<(), Refusal>
        ensures step { PutsToLabel (state self.old (entries_in catalogue.now) code.old) entry.form entry.opcode first label result (state self.new (entries_in catalogue.now) code.new) }
        ensures room { self.new.room ≡ self.old.room }
    {
        if self.is_other(code) {
            return Err(Refusal::at(self.len, Reason::Buffer));
        }
        let encoded = catalogue.write(self.len, &lone(entry, first))?;
        self.branch(code, entry.form, &encoded, label)
    }
}
