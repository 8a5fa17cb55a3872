//! A store over lent slots that searches for a key from its home on, a slot that a hash of the key gives.

#![tactic(auto)]

ghost use Rattle.std.specs.Prelude.{◌≡◌, length};
ghost use Rattle.loose.specs.Homes.{Tidy, Found};
ghost use Rattle.loose.specs.Rows.{held_by, fresh};
ghost use Rattle.loose.specs.Slots.{gathered};
ghost use Rattle.loose.specs.Gathers.{rising, fit, gathered_le};

use crate::close::free;
use crate::find::find;
use crate::scan::{first_from, wipe};
use store::{Absent, Holds, PutRefusal, Slot, Store};

mod close;
mod find;
mod scan;

/// A table that keeps its pairs in no order: each goes into a slot at or behind its key's home, so that few slots are looked at while there
/// is room to spare, and many once it is nearly full. Which free slot a pair takes is left open, and so is what free slots hold (here `None`).
/// No contract speaks of the number of steps.
#[derive(Drop)]
pub struct Loose<'a, V> {
    slots: &'a mut [Slot<V>],
    // How many of them hold a pair: the memory is the buyer's, so no `Vec` can tell.
    len: usize,
    ghost tidy: { Tidy slots.now },
    ghost counted: { len ≡ length (gathered slots.now) },
}

impl<'a, V: Copy> Loose<'a, V> {
    /// An empty table over `slots`, whatever they hold. It uses the first 65,536 of them, if there are more.
    pub fn over(slots: &'a mut [Slot<V>]) -> Loose<'a, V>
        ensures { held_by result.slots.now ≡ fresh (length slots.old) }
    {
        let n = slots.len().min(65536);
        let part = &mut slots[..n];
        wipe(part);
        Loose {
            slots: part,
            len: 0,
        }
    }

    /// The slot of `key`, or else the free one where it would go, if there is one.
    fn find(&self, key: u64) -> Result<usize, Option<usize>>
        ensures { Found self.now.slots.now key result }
    {
        find(self.slots, key)
    }
}

impl<'a, V: Copy> Holds<V> for Loose<'a, V> {
    ghost held = { λ s. held_by s.slots.now };

    ghost sound = { λ s. record {
      rising = rising s.slots.now;
      fit = fit s.slots.now s.tidy.1;
      within = gathered_le s.slots.now;
      small = s.tidy.0;
    } };
}

impl<'a, V: Copy> Store<V> for Loose<'a, V> {
    fn count(&self) -> usize {
        self.len
    }

    fn capacity(&self) -> usize {
        self.slots.len()
    }

    fn get(&self, key: u64) -> Option<V> {
        let at = self.find(key).ok()?;
        let (_, value) = self.slots[at]?;
        Some(value)
    }

    fn first_from(&self, key: u64) -> Option<(u64, V)> {
        first_from(self.slots, key)
    }

    fn put(&mut self, key: u64, value: V) -> Result<(), PutRefusal> {
        // Each of a search's three ends has an answer of its own.
        match self.find(key) {
            Ok(_) => Err(PutRefusal::Present),
            Err(None) => Err(PutRefusal::Full),
            Err(Some(at)) => {
                self.slots[at] = Some((key, value));
                self.len += 1;
                Ok(())
            }
        }
    }

    fn change(&mut self, key: u64, value: V) -> Result<(), Absent> {
        let Ok(at) = self.find(key) else {
            return Err(Absent);
        };
        self.slots[at] = Some((key, value));
        Ok(())
    }

    fn take_out(&mut self, key: u64) -> Result<(), Absent> {
        let Ok(at) = self.find(key) else {
            return Err(Absent);
        };
        free(self.slots, at);
        self.len -= 1;
        Ok(())
    }

    fn clear(&mut self) {
        wipe(self.slots);
        self.len = 0;
    }
}
