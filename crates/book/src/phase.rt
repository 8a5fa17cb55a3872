//! How far the day has come.

/// The day's phases: one before its first event, and one after each of the six.
#[derive(Clone, Copy, PartialEq, Eq)]
pub enum Phase {
    Before,
    Started,
    System,
    Market,
    AfterMarket,
    AfterSystem,
    Over,
}
