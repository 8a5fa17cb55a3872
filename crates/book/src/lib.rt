//! What a book is: the values that it keeps, how its sums change, and why it refuses.

#![tactic(auto)]

pub mod fault;
pub mod letters;
pub mod phase;
pub mod sums;
pub mod value;
mod words;
