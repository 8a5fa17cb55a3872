//! A store over lent slots that keeps its pairs in rising order of their keys, at the front of the slots.

#![tactic(auto)]

ghost use Rattle.std.specs.Prelude.{◌≡◌, ◌<◌, ◌≤◌, length, MatchResult};
ghost use Rattle.ordered.specs.Rows.{held_by, fresh, Kept, front};
ghost use Rattle.ordered.specs.Slots.{place, against};
ghost use Rattle.std.proofs.Common.{arith};
ghost use Rattle.std.proofs.lemmas.List.{length-take};
ghost use Rattle.ordered.specs.SlotsLemmas.{rising, fit, length_pairs};

use crate::shift::{insert, remove};
use std::cmp::Ordering;
use store::{Absent, Holds, PutRefusal, Slot, Store};

mod shift;

/// A table that finds a key by halves, and moves the pairs after it to put one in or take it out: the first `len` slots hold the
/// pairs. What its free slots hold is left open.
#[derive(Drop)]
pub struct Ordered<'a, V> {
    slots: &'a mut [Slot<V>],
    // How many of them are in use: the memory is the buyer's, so no `Vec` can tell.
    len: usize,
    ghost kept: { Kept slots.now len },
}

impl<'a, V: Copy> Ordered<'a, V> {
    /// An empty table over `slots`, whatever they hold. It uses at most 65,536 of them.
    pub fn over(slots: &'a mut [Slot<V>]) -> Ordered<'a, V>
        ensures { held_by result.slots.now result.len ≡ fresh (length slots.old) }
    {
        Ordered { slots, len: 0 }
    }

    /// The place of `key`, or else that where it would go.
    fn find(&self, key: u64) -> Result<usize, usize>
        ensures value { result ≡ place (held_by self.now.slots.now self.now.len).pairs key }
        ensures within { MatchResult result (λ at. at < self.now.len) (λ at. at ≤ self.now.len) }
    {
        let held = &self.slots[..self.len];
        held.binary_search_by(|slot| against(slot, key))
    }
}

/// How the key in `slot` stands to `key`; a free slot stands above each.
fn against<V: Copy>(slot: &Slot<V>, key: u64) -> Ordering
    ensures { result ≡ against slot.now key }
{
    slot.map_or(Ordering::Greater, |(held, _)| held.cmp(&key))
}

impl<'a, V: Copy> Holds<V> for Ordered<'a, V> {
    ghost held = { λ s. held_by s.slots.now s.len };

    ghost sound = { λ s. record {
      rising = rising 0 (front s.slots.now s.len) s.kept.1;
      fit = fit 0 (front s.slots.now s.len) s.kept.1;
      within = let fits = s.kept.0 in
          omega (arith, length_pairs 0 (front s.slots.now s.len) s.kept.1, length-take s.len s.slots.now);
      small = omega arith;
    } };
}

impl<'a, V: Copy> Store<V> for Ordered<'a, V> {
    fn count(&self) -> usize {
        self.len
    }

    fn capacity(&self) -> usize {
        self.slots.len().min(65536)
    }

    fn get(&self, key: u64) -> Option<V> {
        let at = self.find(key).ok()?;
        let (_, value) = self.slots[at]?;
        Some(value)
    }

    fn first_from(&self, key: u64) -> Option<(u64, V)> {
        let (Ok(at) | Err(at)) = self.find(key);
        *self.slots[..self.len].get(at)?
    }

    fn put(&mut self, key: u64, value: V) -> Result<(), PutRefusal> {
        let Err(at) = self.find(key) else {
            return Err(PutRefusal::Present);
        };
        if self.len == self.capacity() {
            return Err(PutRefusal::Full);
        }
        insert(self.slots, self.len, at, Some((key, value)));
        self.len += 1;
        Ok(())
    }

    fn change(&mut self, key: u64, value: V) -> Result<(), Absent> {
        let at = self.find(key).map_err(|_| Absent)?;
        self.slots[at] = Some((key, value));
        Ok(())
    }

    fn take_out(&mut self, key: u64) -> Result<(), Absent> {
        let at = self.find(key).map_err(|_| Absent)?;
        remove(self.slots, self.len, at);
        self.len -= 1;
        Ok(())
    }

    fn clear(&mut self) {
        self.len = 0;
    }
}
