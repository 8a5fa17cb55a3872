//! A stock's account, kept from the accepted messages alone, and the laws that the engine's readings are held to.

#![tactic(auto)]

pub mod account;
mod laws;
mod posting;
