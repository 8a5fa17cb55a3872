//! A short day and a run worked out by hand, as theorems on the definitions that the engine's contracts name.

#![tactic(auto)]

ghost use Rattle.worked_day.specs.Run.{ARun};
ghost use Rattle.worked_day.specs.ShortDay.{ShortDay};

/// The short day stands.
pub fn short_day() -> bool
    ensures { ShortDay }
{
    true
}

/// A run with a feed, a refused feed, a capture whose last message is refused, readings and another feed.
pub fn a_run() -> bool
    ensures { ARun }
{
    true
}
