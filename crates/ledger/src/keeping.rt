//! The phase, the count and the three stores.

ghost use Rattle.std.specs.Prelude.{◌≡◌};
ghost use Rattle.book.specs.Book.{known, with_stocks};
ghost use Rattle.book.specs.Orders.{order};
ghost use Rattle.book.specs.Trades.{trade};
ghost use Rattle.ledger.specs.Kept.{kept};
ghost use Rattle.ledger.specs.Ledger.{book_in};

use crate::day::due;
use crate::ours::ours;
use book::fault::BookFault;
use book::phase::Phase;
use book::value::{Order, Stock, Trade};
use store::Store;
use wire::message::Head;

/// How far the day has come, how many messages were accepted, and the stores of stocks, open orders and trades.
// A parameter for each store: one trait with three types of its own would ask a buyer for such a type for each mix of stores.
#[derive(Drop)]
pub struct Ledger<S, O, M> {
    pub stocks: S,
    pub orders: O,
    pub trades: M,
    pub phase: Phase,
    pub accepted: u64,
}

impl<S: Store<Stock>, O: Store<Order>, M: Store<Trade>> Ledger<S, O, M> {
    /// The stock that a message is about, if such a message is due.
    pub fn known(&self, locate: u16) -> Result<Stock, BookFault>
        ensures { result ≡ known (book_in S.Holds O.Holds M.Holds self.now) locate }
    {
        due(self.phase)?;
        self.stocks
            .get(locate as u64)
            .ok_or(BookFault::UnknownLocate(1))
    }

    /// The open order under a reference, if it is this stock's.
    pub fn order(&self, locate: u16, reference: u64) -> Result<Order, BookFault>
        ensures { result ≡ order (book_in S.Holds O.Holds M.Holds self.now) locate reference }
    {
        ours(
            self.orders.get(reference),
            locate,
            BookFault::UnknownReference,
        )
    }

    // As `order`, of another store and with another fault: the question that both ask is `ours`.
    /// The trade under a match number, if it is this stock's.
    pub fn trade(&self, locate: u16, match_number: u64) -> Result<Trade, BookFault>
        ensures { result ≡ trade (book_in S.Holds O.Holds M.Holds self.now) locate match_number }
    {
        ours(
            self.trades.get(match_number),
            locate,
            BookFault::UnknownMatch,
        )
    }

    /// Keeps a known stock as a message leaves it, with the message's time stamp.
    pub fn keep(&mut self, head: Head, stock: Stock)
        ensures { book_in S.Holds O.Holds M.Holds self.new ≡ kept (book_in S.Holds O.Holds M.Holds self.old) head stock }
    {
        let _ = self.stocks.change(
            head.locate as u64,
            Stock {
                stamp: head.stamp,
                ..stock
            },
        );
    }
}
