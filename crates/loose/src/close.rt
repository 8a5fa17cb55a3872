//! How the hole that a pair leaves is closed, so that no search stops short.

ghost use Rattle.std.specs.Prelude.{◌≡◌, ◌<◌, ◌≤◌, length, None, slice_index_or, slice_set};
ghost use Rattle.loose.specs.Homes.{on_way, stays as stays_put, Ends, Ended, Mover, Closing, Tidy};
ghost use Rattle.loose.specs.Slots.{gathered};

use crate::find::home;
use store::Slot;

/// Frees slot `at`, and closes the hole by moving pairs that have it on their way.
pub(crate) fn free<V: Copy>(slots: &mut [Slot<V>], at: usize)
    requires within { at < length slots.old }
    requires closing { Closing (slice_set slots.old at None) at }
    ensures same { gathered slots.new ≡ gathered (slice_set slots.old at None) }
    ensures tidy { Tidy slots.new }
{
    slots[at] = None;
    let mut hole = at;
    while let Some(from) = mover(slots, hole) {
        shift(slots, from, hole);
        hole = from;
    }
}

/// The first pair behind `hole` that has it on its way.
fn mover<V: Copy>(slots: &[Slot<V>], hole: usize) -> Option<usize>
    requires { Closing slots.now hole }
    ensures { Mover (length slots.now) slots.now hole result }
{
    let at = behind(slots, hole)?;
    slots[at].and(Some(at))
}

/// The first slot behind `hole` that is free or holds a pair with `hole` on its way.
fn behind<V: Copy>(slots: &[Slot<V>], hole: usize) -> Option<usize>
    requires room { length slots.now ≤ 65536 }
    requires within { hole < length slots.now }
    ensures { Ended (length slots.now) slots.now hole result }
{
    end(slots, hole + 1, slots.len(), hole).or_else(|| end(slots, 0, hole, hole))
}

/// The first slot in `low..high` that is free or holds a pair with `hole` on its way.
fn end<V: Copy>(slots: &[Slot<V>], low: usize, high: usize, hole: usize) -> Option<usize>
    requires room { length slots.now ≤ 65536 }
    requires within { high ≤ length slots.now }
    ensures { Ends (length slots.now) slots.now low high hole result }
{
    (low..high).find(|i| !stays(slots, *i, hole))
}

/// Whether slot `i` holds a pair that has not `hole` on its way.
fn stays<V: Copy>(slots: &[Slot<V>], i: usize, hole: usize) -> bool
    requires room { length slots.now ≤ 65536 }
    requires within { i < length slots.now }
    ensures { result ≡ stays_put (length slots.now) (slice_index_or slots.now i None) i hole }
{
    slots[i].is_some_and(|(key, _)| !crosses(home(key, slots.len()), hole, i))
}

/// Whether slot `j` lies on the way from slot `h` to slot `i`, where `i` itself does not.
fn crosses(h: usize, j: usize, i: usize) -> bool
    ensures { result ≡ on_way h j i }
{
    if h <= i {
        h <= j && j < i
    } else {
        h <= j || j < i
    }
}

/// Moves what slot `from` holds into slot `to`.
fn shift<V: Copy>(slots: &mut [Slot<V>], from: usize, to: usize)
    requires source { from < length slots.old }
    requires target { to < length slots.old }
    ensures { slots.new ≡ slice_set (slice_set slots.old to (slice_index_or slots.old from None)) from None }
{
    slots[to] = slots[from];
    slots[from] = None;
}
