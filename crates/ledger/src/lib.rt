//! What an engine keeps, and the questions that several messages must pass.

#![tactic(auto)]

pub mod day;
pub mod keeping;
mod ours;
pub mod questions;
