//! Captures as text: a line for each message, into a buffer that a buyer lends.

#![tactic(auto)]

mod feeds;
mod listed;
pub mod listing;
mod page;
mod rewriting;

pub use self::feeds::feed_named;
pub use self::listed::put_index_fault;
pub use self::rewriting::rewritten;
