//! What a store is: values under 64-bit keys, each key at most once, in a number of places that never changes.

#![tactic(auto)]

ghost use Rattle.std.specs.Prelude.{◌≡◌, length};
ghost use Rattle.store.specs.Held.{Held, Sound, find, from, has, puts, put, changes, change, take_out, emptied};

pub use crate::iter::{PairIter, pairs};

mod iter;

/// Why a pair was not put in.
#[derive(Clone, Copy, PartialEq, Eq)]
pub enum PutRefusal {
    Present,
    Full,
}

/// The key is not there.
#[derive(Clone, Copy, PartialEq, Eq)]
pub struct Absent;

/// A place for one pair in memory that a buyer lends to a table.
pub type Slot<V> = Option<(u64, V)>;

/// What a store means: `held` has its pairs in rising order of their keys, and its capacity.
pub trait Holds<V> {
    ghost held: { Self → Held V };

    ghost sound: { (s : Self) → Sound (held s) };
}

/// The calls of a store. Each answers, and leaves behind, a function of what the store held before.
pub trait Store<V>: Holds<V> {
    fn count(&self) -> usize
        ensures { result ≡ length (Self.Holds.held self.now).pairs };

    fn capacity(&self) -> usize
        ensures { result ≡ (Self.Holds.held self.now).places };

    /// The value under `key`.
    fn get(&self, key: u64) -> Option<V>
        ensures { result ≡ find (Self.Holds.held self.now) key };

    /// The pair with the smallest key at or above `key`.
    fn first_from(&self, key: u64) -> Option<(u64, V)>
        ensures { result ≡ from (Self.Holds.held self.now).pairs key };

    /// Adds a pair: refused as `Present` if its key is there, else as `Full` if no place is free.
    fn put(&mut self, key: u64, value: V) -> Result<(), PutRefusal>
        ensures answer { result ≡ puts (Self.Holds.held self.old) key }
        ensures after { Self.Holds.held self.new ≡ put (Self.Holds.held self.old) key value };

    /// Replaces the value under `key`.
    fn change(&mut self, key: u64, value: V) -> Result<(), Absent>
        ensures answer { result ≡ changes (Self.Holds.held self.old) key }
        ensures after { Self.Holds.held self.new ≡ change (Self.Holds.held self.old) key value };

    /// Takes `key` out.
    fn take_out(&mut self, key: u64) -> Result<(), Absent>
        ensures answer { result ≡ changes (Self.Holds.held self.old) key }
        ensures after { Self.Holds.held self.new ≡ take_out (Self.Holds.held self.old) key };

    /// Takes every pair out.
    fn clear(&mut self)
        ensures { Self.Holds.held self.new ≡ emptied (Self.Holds.held self.old) };
}

/// Whether the store has a value under `key`.
pub fn contains<V: Drop, S: Store<V>>(store: &S, key: u64) -> bool
    ensures { result ≡ has (S.Holds.held store.now) key }
{
    store.get(key).is_some()
}
