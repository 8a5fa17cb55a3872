//! Feeding: bytes are decoded, and what they say is done to the book or refused.

ghost use Rattle.std.specs.Prelude.{◌≡◌};
ghost use Rattle.book.specs.Book.{after};
ghost use Rattle.book.specs.Feed.{Acts, fed, count};
ghost use Rattle.book.specs.Message.{heard};
ghost use Rattle.engine.specs.Engine.{engine_book};
ghost use Rattle.ledger.specs.Ledger.{book_in};
ghost use Rattle.wire.specs.Told.{told};

use crate::making::Engine;
use book::fault::{BookFault, FeedFault};
use book::value::{Order, Stock, Trade};
use decode::decode;
use ledger::day::advance;
use ledger::keeping::Ledger;
use order_steps::{add, cancel, delete, execute, replace};
use stock_steps::{act_on_trading, list, restrict};
use store::Store;
use trade_steps::{break_trade, correct};
use wire::message::{Event, Feed, Message};

/// The most messages that an engine accepts.
const MOST: u64 = 1_000_000_000;

impl<S: Store<Stock>, O: Store<Order>, M: Store<Trade>> Engine<S, O, M> {
    /// Feeds the bytes of a Depth message, and answers how many messages are accepted so far.
    pub fn feed(&mut self, bytes: &[u8]) -> Result<u64, FeedFault>
        ensures answer { result ≡ count (fed (engine_book S.Holds O.Holds M.Holds self.old) bytes.now) }
        ensures after { engine_book S.Holds O.Holds M.Holds self.new ≡ after (engine_book S.Holds O.Holds M.Holds self.old) (fed (engine_book S.Holds O.Holds M.Holds self.old) bytes.now) }
    {
        let message = decode(Feed::Depth, bytes)?;
        if self.ledger.accepted >= MOST {
            return Err(FeedFault::Book(BookFault::TooMany));
        }
        let accepted = self.ledger.accepted + 1;
        act(&mut self.ledger, &message)?;
        self.ledger.accepted = accepted;
        Ok(accepted)
    }
}

/// S: the day moves on.
fn event<S: Store<Stock>, O: Store<Order>, M: Store<Trade>>(
    ledger: &mut Ledger<S, O, M>,
    m: &Event,
) -> Result<(), BookFault>
    ensures { Acts (book_in S.Holds O.Holds M.Holds ledger.old) (heard (told (Message.Event m.now))) result (book_in S.Holds O.Holds M.Holds ledger.new) }
{
    advance(&mut ledger.phase, m.event)
}

/// Does what a message says. Decoding lets no message of another feed through.
fn act<'a, S: Store<Stock>, O: Store<Order>, M: Store<Trade>>(
    ledger: &mut Ledger<S, O, M>,
    m: &Message<'a>,
) -> Result<(), BookFault>
    ensures { Acts (book_in S.Holds O.Holds M.Holds ledger.old) (heard (told m.now)) result (book_in S.Holds O.Holds M.Holds ledger.new) }
{
    match m {
        Message::Event(m) => event(ledger, m),
        Message::Directory(m) => list(ledger, m),
        Message::TradingAction(m) => act_on_trading(ledger, m),
        Message::Restriction(m) => restrict(ledger, m),
        Message::Add(m) => add(ledger, m),
        Message::Execute(m) => execute(ledger, m),
        Message::Cancel(m) => cancel(ledger, m),
        Message::Delete(m) => delete(ledger, m),
        Message::Replace(m) => replace(ledger, m),
        Message::Correct(m) => correct(ledger, m),
        Message::Break(m) => break_trade(ledger, m),
        Message::Quote(_) | Message::Sale(_) | Message::SaleCancel(_) => Err(BookFault::NotDue(0)),
    }
}
