ghost use Rattle.std.specs.Prelude.{◌≡◌, ◌≤◌, List, [], ◌∷◌, ◌++◌, length, MatchResult};
ghost use Rattle.refusal.specs.Refusals.{first_refusal, answered, unless};
ghost use Rattle.book.specs.Books.{no_more_uses, record_checks};
ghost use Rattle.book.specs.Listed.{uses_in};

use crate::target::Use;
use crate::use_book::{MOST_USES, UseBook};
use bounded::Bounded;
use refusal::Reason;
use std::alloc::Global;

impl UseBook {
    /// An empty book, or MEMORY.
    pub fn new(heap: Global) -> Result<UseBook, Reason>
        ensures { MatchResult result (λ b. uses_in b ≡ []) (λ e. e ≡ Reason.Memory) }
    {
        let uses = Bounded::new(heap)?;
        Ok(UseBook { uses })
    }

    /// Whether no more uses can be recorded.
    pub fn is_full(&self) -> bool
        ensures full { result ≡ no_more_uses (uses_in self.now) }
        ensures few { length (uses_in self.now) ≤ MOST_USES }
    {
        self.uses.is_full()
    }

    /// Records one more use.
    pub fn record_use(&mut self, field: Use) -> Result<(), Reason>
        ensures answers { result ≡ answered (first_refusal (record_checks (uses_in self.old))) tt }
        ensures leaves { uses_in self.new ≡ unless (first_refusal (record_checks (uses_in self.old))) (uses_in self.old ++ field ∷ []) (uses_in self.old) }
    {
        self.uses.push(field)
    }

    /// The uses, in the order recorded.
    pub fn as_slice(&self) -> &[Use]
        ensures { result.now ≡ uses_in self.now }
    {
        self.uses.as_slice()
    }
}
