ghost use Rattle.std.specs.Prelude.{◌≡◌, MatchResult};
ghost use Rattle.refusal.specs.declared.Reason.TheVariants.{Memory};
ghost use Rattle.refusal.specs.Refusals.{refused_at, answer, unless, first_refusal};
ghost use Rattle.refusal.specs.Tests.{any};
ghost use Rattle.form.specs.Instr.{bytes_of};
ghost use Rattle.catalogue_law.specs.Catalogue.{clashes as clashing, catalogued, initial, admit_refusal, admitted, put_checks};
ghost use Rattle.catalogue.specs.Listed.{entries_in};

use crate::catalogue::Catalogue;
use crate::entry::{clashes, misfit};
use bounded::Bounded;
use codec::encode::{Encoded, encode};
use form::Form;
use form::instr::{Entry, Instr};
use refusal::{Reason, Refusal};
use std::alloc::Global;

/// How many entries a catalogue has at most.
pub const LIMIT: usize = 512;

/// LGFI, LA, LAY and LARL.
const INITIAL: [Entry; 4] = [
    Entry {
        form: Form::RilA,
        opcode: 0xc01,
    },
    Entry {
        form: Form::Rx,
        opcode: 0x41,
    },
    Entry {
        form: Form::Rxy,
        opcode: 0xe371,
    },
    Entry {
        form: Form::RilB,
        opcode: 0xc00,
    },
];

impl Catalogue {
    /// A new catalogue holds LGFI, LA, LAY and LARL. Refused only for want of memory.
    pub fn new(heap: Global) -> Result<Catalogue, Refusal>
        ensures { MatchResult result (λ c. entries_in c ≡ initial) (λ e. e ≡ refused_at 0 Memory) }
    {
        let mut entries = Bounded::new(heap).map_err(|reason| Refusal::at(0, reason))?;
        for entry in INITIAL {
            entries
                .push(entry)
                .map_err(|reason| Refusal::at(0, reason))?;
        }
        Ok(Catalogue { entries })
    }

    /// Whether an entry clashes with one that is there.
    fn is_clash(&self, entry: Entry) -> bool
        ensures { result ≡ any (clashing entry.form entry.opcode) (entries_in self.now) }
    {
        self.entries.as_slice().iter().any(|e| clashes(entry, *e))
    }

    /// Adds an entry at the end. Refused by MISFIT, CLASH and FULL, which change nothing.
    pub fn admit(&mut self, entry: Entry) -> Result<(), Refusal>
        ensures answers { result ≡ answer 0 (admit_refusal (entries_in self.old) entry.form entry.opcode) tt }
        ensures leaves { entries_in self.new ≡ unless (admit_refusal (entries_in self.old) entry.form entry.opcode) (admitted (entries_in self.old) entry.form entry.opcode) (entries_in self.old) }
    {
        if misfit(entry) {
            return Err(Refusal::at(0, Reason::Misfit));
        }
        if self.is_clash(entry) {
            return Err(Refusal::at(0, Reason::Clash));
        }
        self.entries
            .push(entry)
            .map_err(|reason| Refusal::at(0, reason))
    }

    /// Whether an entry is catalogued.
    pub fn holds(&self, entry: Entry) -> bool
        ensures { result ≡ catalogued (entries_in self.now) entry.form entry.opcode }
    {
        self.entries.as_slice().iter().any(|e| *e == entry)
    }

    /// The bytes of a catalogued instruction that is to stand at `place`. Refused by MISFIT, OPCODE and OPERAND.
    pub fn write(&self, place: usize, instr: &Instr) -> Result<Encoded, Refusal>
        ensures { result ≡ answer place (first_refusal (put_checks (entries_in self.now) instr.now.form instr.now.opcode instr.now.operands)) (bytes_of instr.now) }
    {
        let entry = instr.entry();
        if misfit(entry) {
            return Err(Refusal::at(place, Reason::Misfit));
        }
        if !self.holds(entry) {
            return Err(Refusal::at(place, Reason::Opcode));
        }
        encode(instr).map_err(|reason| Refusal::at(place, reason))
    }
}
