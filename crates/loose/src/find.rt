//! The search for a key from its home on, and past the last slot from the first.

ghost use Rattle.std.specs.Prelude.{◌≡◌, ◌<◌, ◌≤◌, length, None, slice_index_or};
ghost use Rattle.loose.specs.Homes.{home as home_of, Stops, Sought, Found, Tidy};
ghost use Rattle.loose.specs.Slots.{passes as goes_past};

use store::Slot;

/// The slot of `key`, or else the free one where it would go, if there is one.
pub(crate) fn find<V: Copy>(slots: &[Slot<V>], key: u64) -> Result<usize, Option<usize>>
    requires { Tidy slots.now }
    ensures { Found slots.now key result }
{
    let Some(at) = seek(slots, key) else {
        return Err(None);
    };
    if slots[at].is_some() {
        Ok(at)
    } else {
        Err(Some(at))
    }
}

/// The first slot from the home of `key` on that is free or holds `key`.
fn seek<V: Copy>(slots: &[Slot<V>], key: u64) -> Option<usize>
    requires { length slots.now ≤ 65536 }
    ensures { Sought (length slots.now) slots.now key result }
{
    let start = home(key, slots.len());
    stop(slots, start, slots.len(), key).or_else(|| stop(slots, 0, start, key))
}

// `stop` and `seek` have their like in the search for a pair to move: each is a line of std's with a test of its own.
// `seek` asks for at most 65,536 slots, which the table's type says: it takes the lent slots, as the closing of a hole does.
/// The first slot in `low..high` that is free or holds `key`.
fn stop<V: Copy>(slots: &[Slot<V>], low: usize, high: usize, key: u64) -> Option<usize>
    requires { high ≤ length slots.now }
    ensures { Stops slots.now low high key result }
{
    (low..high).find(|i| !passes(slots, *i, key))
}

/// The slot, of `n`, where the search for `key` starts.
pub(crate) fn home(key: u64, n: usize) -> usize
    requires { n ≤ 65536 }
    ensures value { result ≡ home_of key n }
    ensures within { result ≤ n }
{
    let mixed = key.wrapping_mul(0x9E37_79B9_7F4A_7C15) >> 32;
    (mixed * n as u64 >> 32) as usize
}

/// Whether a search for `key` goes on past slot `i`.
fn passes<V: Copy>(slots: &[Slot<V>], i: usize, key: u64) -> bool
    requires { i < length slots.now }
    ensures { result ≡ goes_past (slice_index_or slots.now i None) key }
{
    slots[i].is_some_and(|(held, _)| held != key)
}
