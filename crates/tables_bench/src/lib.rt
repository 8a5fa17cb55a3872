//! The tables under steady load, exported so that a foreign program can time them.

#![tactic(auto)]

use loose::Loose;
use ordered::Ordered;
use store::Store;

/// The most places of a table.
const MOST: usize = 65_536;

// The parameters are those of the exported names.
/// Fills a table with the first `load` keys; then, `rounds` times, looks up and changes the oldest key, takes it out and puts the next one
/// in. Answers a sum of what was read, so that nothing is left out.
fn exercise<S: Store<u64>>(table: &mut S, keys: &[u64], load: usize, rounds: usize) -> u64 {
    for key in keys.iter().take(load) {
        let _ = table.put(*key, 1);
    }
    let mut sum = 0u64;
    // Without keys it is key 0 all the time, and past the last key the first one put in is 0.
    let ring = if keys.is_empty() { &[0] } else { keys };
    let ahead = match keys.get(load..) {
        Some(rest) if !rest.is_empty() => rest,
        _ => &[0],
    };
    let ahead = ahead.iter().chain(ring.iter().cycle());
    for ((round, old), new) in (0..rounds).zip(ring.iter().cycle()).zip(ahead) {
        sum = sum.wrapping_add(table.get(*old).unwrap_or(0));
        let _ = table.change(*old, round as u64);
        let _ = table.take_out(*old);
        let _ = table.put(*new, 1);
    }
    sum
}

// Twins, since a function that C calls cannot be generic; what they share is `exercise`.

/// The ordered table with so many places.
#[unsafe(no_mangle)]
pub extern "C" fn exercise_ordered(keys: &[u64], places: usize, load: usize, rounds: usize) -> u64 {
    let mut slots = [None; MOST];
    let places = places.min(MOST);
    let mut table = Ordered::over(&mut slots[0..places]);
    exercise(&mut table, keys, load, rounds)
}

/// The loose table with so many places.
#[unsafe(no_mangle)]
pub extern "C" fn exercise_loose(keys: &[u64], places: usize, load: usize, rounds: usize) -> u64 {
    let mut slots = [None; MOST];
    let places = places.min(MOST);
    let mut table = Loose::over(&mut slots[0..places]);
    exercise(&mut table, keys, load, rounds)
}
