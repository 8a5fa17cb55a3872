//! A message as a line of text, and the summary of a listing, into a buffer that a buyer lends.

#![tactic(auto)]

pub mod line;
mod messages;
mod pen;
pub mod summary;
