//! A store over a `Vec` that it owns: its pairs in rising order of their keys, with all memory reserved at its making.

#![tactic(auto)]

ghost use Rattle.std.specs.Prelude.{◌≡◌, ◌<◌, ◌≤◌, true, IfOk, vec_len, vec_capacity, MatchResult};
ghost use Rattle.ordered.specs.Rows.{fresh};
ghost use Rattle.ordered.specs.Slots.{place};
ghost use Rattle.own_store.specs.Pairs.{sorted, held_as};
ghost use Rattle.std.proofs.Common.{arith};
ghost use Rattle.own_store.specs.PairsLemmas.{rising, fit};

use std::alloc::{AllocError, Global};
use store::{Absent, Holds, PutRefusal, Store};

/// A table that finds a key by halves. Its capacity is fixed at its making, and no call after that is refused for want of memory.
#[derive(Drop)]
pub struct OwnStore<V> {
    pairs: Vec<(u64, V)>,
    // Fixed at its making; the `Vec` may have memory for more.
    places: usize,
    // Keys rise and have 64 bits. There is memory for every place.
    ghost rises: { sorted 0 pairs.items ≡ true },
    ghost fits: { (vec_len pairs ≤ places) × (places ≤ 65536) × (places ≤ vec_capacity pairs) },
}

impl<V: Copy> OwnStore<V> {
    /// An empty store with `places` places, but at most 65,536.
    pub fn with_places(heap: Global, places: usize) -> Result<OwnStore<V>, AllocError>
        ensures { IfOk result (λ s. held_as s.pairs.items s.places ≡ fresh places) }
    {
        let places = places.min(65536);
        let pairs = Vec::with_capacity(heap, places)?;
        Ok(OwnStore { pairs, places })
    }

    /// The place of `key`, or else that where it would go.
    fn find(&self, key: u64) -> Result<usize, usize>
        ensures value { result ≡ place self.now.pairs.items key }
        ensures within { MatchResult result (λ at. at < vec_len self.now.pairs) (λ at. at ≤ vec_len self.now.pairs) }
    {
        self.pairs.binary_search_by_key(&key, |&(held, _)| held)
    }
}

impl<V: Copy> Holds<V> for OwnStore<V> {
    ghost held = { λ s. held_as s.pairs.items s.places };

    ghost sound = { λ s.
        record {
          rising = rising 0 s.pairs.items s.rises;
          fit = fit 0 s.pairs.items s.rises;
          within = omega arith;
          small = omega arith;
        } };
}

impl<V: Copy> Store<V> for OwnStore<V> {
    fn count(&self) -> usize {
        self.pairs.len()
    }

    fn capacity(&self) -> usize {
        self.places
    }

    fn get(&self, key: u64) -> Option<V> {
        let at = self.find(key).ok()?;
        Some(self.pairs[at].1)
    }

    fn first_from(&self, key: u64) -> Option<(u64, V)> {
        let (Ok(at) | Err(at)) = self.find(key);
        self.pairs.get(at).copied()
    }

    fn put(&mut self, key: u64, value: V) -> Result<(), PutRefusal> {
        let Err(at) = self.find(key) else {
            return Err(PutRefusal::Present);
        };
        if self.pairs.len() == self.places {
            return Err(PutRefusal::Full);
        }
        // Never refused, since the memory for it is there.
        let _ = self.pairs.insert(at, (key, value));
        Ok(())
    }

    fn change(&mut self, key: u64, value: V) -> Result<(), Absent> {
        let at = self.find(key).map_err(|_| Absent)?;
        self.pairs[at] = (key, value);
        Ok(())
    }

    fn take_out(&mut self, key: u64) -> Result<(), Absent> {
        let at = self.find(key).map_err(|_| Absent)?;
        self.pairs.remove(at);
        Ok(())
    }

    fn clear(&mut self) {
        self.pairs.clear();
    }
}
