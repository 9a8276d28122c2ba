ghost use Rattle.std.specs.Prelude.{◌≡◌, List, Ok, IfOk};
ghost use Rattle.form.specs.declared.instr.Entry.{Entry};
ghost use Rattle.book.specs.Labels.{slot_of};
ghost use Rattle.book.specs.Listed.{labels_in};
ghost use Rattle.field.specs.Family.{family};
ghost use Rattle.address.specs.Convention.{standard};
ghost use Rattle.law.specs.Section.{Closes};
ghost use Rattle.law.specs.Law.{Promises};
ghost use Rattle.section.specs.State.{state};
ghost use Rattle.section.specs.Closing.{closing, Ends};

use crate::section::{Finished, Section, Unclosed};
use book::target::Slot;
use field::family::FieldPatch;
use refusal::{Reason, Refusal};
use settle::{Places, settle};

impl Finished {
    /// How many bytes of the buffer the code has.
    pub fn len(&self) -> usize
        ensures { result ≡ self.now.count }
    {
        self.count
    }

    /// What became of a label, by its number; one that was not reserved is as good as given up.
    pub fn slot(&self, label: usize) -> Slot
        ensures { result ≡ slot_of (labels_in self.now.labels) label }
    {
        self.labels.slot(label)
    }
}

impl<L: FieldPatch, S: FieldPatch> Section<L, S> {
    /// Ends the section: every field to be filled is checked, in the order recorded, and then each is filled. Refused by BUFFER and by what
    /// settling refuses, which change nothing and hand the section back.
    /// Accepted, the code is faithful to the calls that have led here, whatever calls they were.
    pub fn close(self, code: &mut [u8], symbols: &[i64]) -> Result<Finished, Unclosed<L, S>>
        ensures step { (es : List Entry) → Closes (family L.FieldRead.fields L.FieldPatch.patched) (family S.FieldRead.fields S.FieldPatch.patched) (state self es code.old) symbols.now (closing result) code.new }
        ensures ends { Ends self result }
        ensures labels { IfOk result (λ f. f.labels ≡ self.labels) }
        ensures promises { (es : List Entry) → closing result ≡ Ok tt → Promises standard (family L.FieldRead.fields L.FieldPatch.patched) (family S.FieldRead.fields S.FieldPatch.patched) (state self es code.old) symbols.now code.new }
    {
        if self.is_other(code) {
            let refusal = Refusal::at(self.len, Reason::Buffer);
            return Err(Unclosed {
                refusal,
                section: self,
            });
        }
        let places = Places {
            labels: &self.labels,
            symbols,
        };
        if let Err(refusal) = settle::<L, S>(self.uses.as_slice(), &places, code) {
            return Err(Unclosed {
                refusal,
                section: self,
            });
        }
        let Section {
            room: _,
            len,
            labels,
            uses: _,
            label_family: _,
            symbol_family: _,
        } = self;
        Ok(Finished { count: len, labels })
    }
}
