//! Slots moved by one, so that a place among them opens or closes.

ghost use Rattle.std.specs.Prelude.{◌≡◌, ◌+◌, ◌-◌, ◌<◌, ◌≤◌, ◌∷◌, length, take, drop, None};
ghost use Rattle.std.specs.List.{insert, remove};

use store::Slot;

// Both loop by index: with `copy_within` in their place a table of 512 places takes a tenth longer.

/// Puts `slot` in at place `at` of the first `len` slots, and moves those from there on up by one.
pub(crate) fn insert<V: Copy>(slots: &mut [Slot<V>], len: usize, at: usize, slot: Slot<V>)
    requires { (at ≤ len) × (len < length slots.old) }
    ensures front { take (len + 1) slots.new ≡ insert (take len slots.old) at slot }
    ensures back { drop (len + 1) slots.new ≡ drop (len + 1) slots.old }
{
    for i in (at..len).rev() {
        slots[i + 1] = slots[i];
    }
    slots[at] = slot;
}

/// Takes the slot at place `at` of the first `len` out, moves those after it down by one, and leaves the last of them free.
pub(crate) fn remove<V: Copy>(slots: &mut [Slot<V>], len: usize, at: usize)
    requires { (at < len) × (len ≤ length slots.old) }
    ensures front { take (len - 1) slots.new ≡ remove (take len slots.old) at }
    ensures back { drop (len - 1) slots.new ≡ None ∷ drop len slots.old }
{
    for i in at + 1..len {
        slots[i - 1] = slots[i];
    }
    slots[len - 1] = None;
}
