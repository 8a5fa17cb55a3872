//! Numbers and lines of text in a buffer that a buyer lends.

#![tactic(auto)]

pub mod fault_line;
pub mod line;
pub mod number;
pub mod pieces;

/// The buffer ends before the text would; it is as it was.
#[derive(Clone, Copy, PartialEq, Eq)]
pub struct TooShort;
