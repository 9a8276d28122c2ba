ghost use Rattle.std.specs.Prelude.{◌≡◌, List, [], ◌∷◌, ◌++◌, length, MatchResult};
ghost use Rattle.refusal.specs.Refusals.{first_refusal, answered, unless};
ghost use Rattle.book.specs.declared.target.Slot.TheVariants.{Waiting as waiting, Bound as bound, GivenUp as given_up};
ghost use Rattle.book.specs.Labels.{slot_of, settle_label};
ghost use Rattle.book.specs.Books.{reserve_checks, bind_checks};
ghost use Rattle.book.specs.Listed.{labels_in};

use crate::label_book::LabelBook;
use crate::target::Slot;
use bounded::Bounded;
use refusal::Reason;
use std::alloc::Global;

impl LabelBook {
    /// An empty book, or MEMORY.
    pub fn new(heap: Global) -> Result<LabelBook, Reason>
        ensures { MatchResult result (λ b. labels_in b ≡ []) (λ e. e ≡ Reason.Memory) }
    {
        let slots = Bounded::new(heap)?;
        Ok(LabelBook { slots })
    }

    /// A new label, by its number.
    pub fn reserve(&mut self) -> Result<usize, Reason>
        ensures answers { result ≡ answered (first_refusal (reserve_checks (labels_in self.old))) (length (labels_in self.old)) }
        ensures leaves { labels_in self.new ≡ unless (first_refusal (reserve_checks (labels_in self.old))) (labels_in self.old ++ waiting ∷ []) (labels_in self.old) }
    {
        let label = self.slots.as_slice().len();
        self.slots.push(Slot::Waiting)?;
        Ok(label)
    }

    /// What became of a label; one that was never reserved is as good as given up.
    pub fn slot(&self, label: usize) -> Slot
        ensures { result ≡ slot_of (labels_in self.now) label }
    {
        let slots = self.slots.as_slice();
        slots.get(label).copied().unwrap_or(Slot::GivenUp)
    }

    /// Binds a label that waits to a place.
    pub fn bind(&mut self, label: usize, place: usize) -> Result<(), Reason>
        ensures answers { result ≡ answered (first_refusal (bind_checks (labels_in self.old) label)) tt }
        ensures leaves { labels_in self.new ≡ settle_label (labels_in self.old) label (bound place) }
    {
        if !matches!(self.slot(label), Slot::Waiting) {
            return Err(Reason::Label);
        }
        self.slots.set(label, Slot::Bound(place));
        Ok(())
    }

    /// Gives a label up, if it waits.
    pub fn give_up(&mut self, label: usize)
        ensures { labels_in self.new ≡ settle_label (labels_in self.old) label given_up }
    {
        if matches!(self.slot(label), Slot::Waiting) {
            self.slots.set(label, Slot::GivenUp);
        }
    }
}
