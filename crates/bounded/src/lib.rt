//! Lists of at most so many items, whose memory is taken when they are made.

#![tactic(auto)]

ghost use Rattle.std.specs.Prelude.{◌≡◌, ◌≤◌, List, [], ◌∷◌, ◌++◌, length, slice_set, vec_items, vec_capacity, MatchResult, Some, None, nat_le, if◌then◌else◌};
ghost use Rattle.refusal.specs.declared.Reason.TheVariants.{Full, Memory};
ghost use Rattle.refusal.specs.Refusals.{answered, unless};
ghost use Rattle.bounded.specs.Lists.{full_refusal};

use refusal::Reason;
use std::alloc::Global;
use std::marker::Model;

/// A list of at most `MOST` items. No call but `new` asks for memory.
#[derive(Drop)]
pub struct Bounded<T, const MOST: usize> {
    items: Vec<T>,
}

// Clauses see the items.
impl<T, const MOST: usize> Model for Bounded<T, MOST> {
    ghost Value = { List T };

    ghost view = { λ b. vec_items b.items };

    ghost invariant = { λ b. (MOST ≤ vec_capacity b.items) × (length (vec_items b.items) ≤ MOST) };
}

impl<T, const MOST: usize> Bounded<T, MOST> {
    /// An empty list, or MEMORY.
    pub fn new(heap: Global) -> Result<Bounded<T, MOST>, Reason>
        ensures { MatchResult result (λ b. b ≡ []) (λ e. e ≡ Memory) }
    {
        let items = Vec::with_capacity(heap, MOST).map_err(|_| Reason::Memory)?;
        Ok(Bounded { items })
    }

    /// Whether no more items can be added.
    pub fn is_full(&self) -> bool
        ensures full { result ≡ nat_le MOST (length self.now) }
        ensures few { length self.now ≤ MOST }
    {
        self.items.len() >= MOST
    }

    /// The items, in order.
    pub fn as_slice(&self) -> &[T]
        ensures items { result.now ≡ self.now }
        ensures few { length self.now ≤ MOST }
    {
        self.items.as_slice()
    }
}

impl<T: Copy, const MOST: usize> Bounded<T, MOST> {
    /// Adds an item at the end, or refuses by FULL.
    pub fn push(&mut self, item: T) -> Result<(), Reason>
        ensures answers { result ≡ answered (full_refusal MOST self.old) tt }
        ensures leaves { self.new ≡ unless (full_refusal MOST self.old) (self.old ++ item ∷ []) self.old }
        ensures few { length self.new ≤ MOST }
    {
        if self.is_full() {
            return Err(Reason::Full);
        }
        self.items.push_reserved(item);
        Ok(())
    }

    /// Puts another item in the place of one; past the end nothing changes.
    pub fn set(&mut self, index: usize, item: T)
        ensures sets { self.new ≡ slice_set self.old index item }
        ensures few { length self.new ≤ MOST }
    {
        if index < self.items.len() {
            self.items[index] = item;
        }
    }
}

#[cfg(test)]
mod tests {
    use super::*;
    use std::test::Fail;

    #[test]
    fn fills(rt: HostRuntime) -> Result<(), Fail> {
        let mut list: Bounded<u8, 2> = Bounded::new(rt.alloc()).ok().ok_or("memory")?;
        assert!(rt; list.push(7).is_ok() && list.push(8).is_ok() && list.is_full());
        assert!(rt; list.push(9) == Err(Reason::Full));
        list.set(0, 6);
        list.set(2, 5);
        assert!(rt; list.as_slice() == [6, 8].as_slice());
        Ok(())
    }
}
