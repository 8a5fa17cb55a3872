//! The day's phase, moved on by its events.

ghost use Rattle.std.specs.Prelude.{◌≡◌, Ok, Err};
ghost use Rattle.book.specs.Book.{due};
ghost use Rattle.book.specs.Day.{next};

use book::fault::BookFault;
use book::phase::Phase;

/// Whether messages other than events are due.
pub fn due(phase: Phase) -> Result<(), BookFault>
    ensures { result ≡ due phase }
{
    match phase {
        Phase::Before | Phase::Over => Err(BookFault::NotDue(0)),
        _ => Ok(()),
    }
}

/// Moves the day on, if the event is the next.
pub fn advance(phase: &mut Phase, event: char) -> Result<(), BookFault>
    ensures { elim (next phase.old event) [ Ok p ↦ (result ≡ Ok tt) × (phase.new ≡ p) | Err e ↦ (result ≡ Err e) × (phase.new ≡ phase.old) ] }
{
    *phase = match (*phase, event) {
        (Phase::Before, 'O') => Phase::Started,
        (Phase::Started, 'S') => Phase::System,
        (Phase::System, 'Q') => Phase::Market,
        (Phase::Market, 'M') => Phase::AfterMarket,
        (Phase::AfterMarket, 'E') => Phase::AfterSystem,
        (Phase::AfterSystem, 'C') => Phase::Over,
        _ => return Err(BookFault::NotDue(11)),
    };
    Ok(())
}
