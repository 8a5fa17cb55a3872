//! An audit of a day: each stock's sums, added up from the accepted messages alone, against the engine's readings.

#![tactic(auto)]

mod journal;
mod lines;
mod whole;

pub use self::whole::{Audited, audit};
