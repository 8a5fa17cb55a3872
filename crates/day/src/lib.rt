//! A day: a capture is played into an engine, and the report and the line of a fault are written.

#![tactic(auto)]

mod playing;
mod reporting;
mod texts;
mod whole;

pub use self::playing::play;
pub use self::texts::{put_day, put_fault, put_report};
pub use self::whole::run;
