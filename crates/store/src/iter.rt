//! The pairs of a store one after another, in rising order of their keys.

ghost use Rattle.std.specs.Prelude.{◌≡◌, ℕ};
ghost use Rattle.std.specs.Iterator.{YieldsFirst, item_count};
ghost use Rattle.std.specs.Iterator.Runs.{YieldsInOrder};

use crate::Store;
use std::marker::{Model, PhantomData};

/// The pairs that are left, as their list: those with keys at or above `next`.
#[derive(Drop)]
pub struct PairIter<'a, V, S: Store<V>> {
    store: &'a S,
    next: Option<u64>,
    values: PhantomData<V>,
}

impl<'a, V, S: Store<V>> Model for PairIter<'a, V, S> {
    ghost use Rattle.std.specs.Prelude.{ℕ, List};
    ghost use Rattle.store.specs.Left.{left};

    ghost Value = { List (ℕ × V) };

    ghost view = { λ it. left (S.Holds.held it.store.now).pairs it.next };
}

impl<'a, V, S: Store<V>> Iterator for PairIter<'a, V, S> {
    type Item = (u64, V);

    ghost next_gives = { YieldsFirst (λ rest. rest) };

    ghost remaining = { item_count (λ rest. rest) };

    fn next(&mut self) -> Option<(u64, V)> {
        let pair = self.store.first_from(self.next?)?;
        self.next = pair.0.checked_add(1);
        Some(pair)
    }
}

/// The pairs of `store`.
pub fn pairs<V, S: Store<V>>(store: &S) -> PairIter<'_, V, S>
    ensures all { result ≡ (S.Holds.held store.now).pairs }
    ensures runs { YieldsInOrder (YieldsFirst {A = ℕ × V} (λ rest. rest)) (λ rest. rest) }
{
    PairIter {
        store,
        next: Some(0),
        values: PhantomData,
    }
}
