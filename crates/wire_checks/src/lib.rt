//! Tests of decoding and writing on bytes that were laid out by hand.

#![tactic(auto)]

#[cfg(test)]
mod questions;
#[cfg(test)]
mod refusals;
#[cfg(test)]
mod writing;
