//! Captures: messages behind an index that says where each of them lies.

#![tactic(auto)]

pub mod fault;
mod index;
mod judged;
mod messages;
mod parts;

pub use self::index::judge;
pub use self::judged::Capture;
pub use self::messages::Messages;
pub use self::parts::message;
