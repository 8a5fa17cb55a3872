//! The wire form of the messages: what they are, and the questions that their fields must pass.

#![tactic(auto)]

pub use codes;

pub mod fault;
mod fields;
mod judging;
pub mod kind;
pub mod message;
pub mod symbols;
