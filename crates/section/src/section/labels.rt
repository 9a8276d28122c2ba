ghost use Rattle.std.specs.Prelude.{◌≡◌, List, length, Ok};
ghost use Rattle.form.specs.declared.instr.Entry.{Entry};
ghost use Rattle.law.specs.Section.{Reserves, Binds, GivesUp};
ghost use Rattle.section.specs.State.{state, numbered, plain, HandsBack};

use crate::section::{Promise, Section, Unkept};
use refusal::{Reason, Refusal};

impl<L, S> Section<L, S> {
    /// A new label. Refused by BUFFER and FULL.
    pub fn reserve(&mut self, code: &[u8]) -> Result<Promise, Refusal>
        ensures step { (es : List Entry) → Reserves (state self.old es code.now) (numbered result) (state self.new es code.now) }
        ensures room { self.new.room ≡ self.old.room }
    {
        if self.is_other(code) {
            return Err(Refusal::at(self.len, Reason::Buffer));
        }
        let len = self.len;
        let label = self
            .labels
            .reserve()
            .map_err(|reason| Refusal::at(len, reason))?;
        Ok(Promise { label })
    }

    /// Binds a promised label here, at the end of what is written. Refused by BUFFER and LABEL, which hand the promise back.
    pub fn bind(&mut self, code: &[u8], promise: Promise) -> Result<(), Unkept>
        ensures step { (es : List Entry) → Binds (state self.old es code.now) promise.label (plain result) (state self.new es code.now) }
        ensures back { HandsBack promise result }
        ensures room { self.new.room ≡ self.old.room }
    {
        if self.is_other(code) {
            let refusal = Refusal::at(self.len, Reason::Buffer);
            return Err(Unkept { refusal, promise });
        }
        match self.labels.bind(promise.label, self.len) {
            Ok(()) => {
                let Promise { label: _ } = promise;
                Ok(())
            }
            Err(reason) => {
                let refusal = Refusal::at(self.len, reason);
                Err(Unkept { refusal, promise })
            }
        }
    }

    /// Gives a promised label up. Refused by BUFFER, which hands the promise back.
    pub fn give_up(&mut self, code: &[u8], promise: Promise) -> Result<(), Unkept>
        ensures step { (es : List Entry) → GivesUp (state self.old es code.now) promise.label (plain result) (state self.new es code.now) }
        ensures back { HandsBack promise result }
        ensures room { self.new.room ≡ self.old.room }
        ensures taken { length code.now ≡ self.old.room → plain result ≡ Ok tt }
    {
        if self.is_other(code) {
            let refusal = Refusal::at(self.len, Reason::Buffer);
            return Err(Unkept { refusal, promise });
        }
        let Promise { label } = promise;
        self.labels.give_up(label);
        Ok(())
    }
}
