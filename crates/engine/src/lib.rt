//! The book engine over three stores: it is fed Depth messages and answers readings.

#![tactic(auto)]

mod feeding;
pub mod making;
mod readings;
