//! Calls that go through all slots.

ghost use Rattle.std.specs.Prelude.{◌≡◌};
ghost use Rattle.store.specs.Held.{from};
ghost use Rattle.loose.specs.Slots.{gathered, closer, Blank};

use store::Slot;

/// Frees every slot.
pub(crate) fn wipe<V: Copy>(slots: &mut [Slot<V>])
    ensures { Blank slots.new }
{
    slots.fill(None);
}

/// The pair with the smallest key at or above `key`.
pub(crate) fn first_from<V: Copy>(slots: &[Slot<V>], key: u64) -> Option<(u64, V)>
    ensures { result ≡ from (gathered slots.now) key }
{
    slots
        .iter()
        .rev()
        .fold(None, |best, slot| nearer(best, *slot, key))
}

/// The one of two slots that holds the smaller key at or above `key`, if either does.
fn nearer<V: Copy>(best: Slot<V>, slot: Slot<V>, key: u64) -> Slot<V>
    ensures { result ≡ closer best slot key }
{
    match (best, slot) {
        (_, None) => best,
        (None, Some(pair)) => if pair.0 < key { None } else { slot },
        (Some(near), Some(pair)) => if pair.0 < key || near.0 < pair.0 {
            best
        } else {
            slot
        },
    }
}
