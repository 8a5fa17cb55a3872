//! Readings: what a book tells of a stock, its quote, an order and a trade. None of them changes it.

ghost use Rattle.std.specs.Prelude.{◌≡◌, ℕ};
ghost use Rattle.std.specs.Iterator.{YieldsFirst};
ghost use Rattle.std.specs.Iterator.Runs.{YieldsInOrder};
ghost use Rattle.book.specs.Book.{stock};
ghost use Rattle.book.specs.declared.value.Stock.{Stock};
ghost use Rattle.book.specs.Quote.{quote};
ghost use Rattle.book.specs.Trace.{trace};
ghost use Rattle.engine.specs.Engine.{engine_book};
ghost use Rattle.laws.specs.Laws.{StockLaws, QuoteLaws, TraceLaws};
ghost use Rattle.laws.specs.Runs.{Moment, book_of};
ghost use Rattle.quotes.specs.Rule.{QuoteRule};
ghost use Rattle.store.specs.Held.{find, from};

use crate::making::Engine;
use book::fault::BookFault;
use book::value::{Order, Quote, Standing, Stock, Trade};
use quotes::best_levels;
use store::{PairIter, Store, pairs};

impl<S: Store<Stock>, O: Store<Order>, M: Store<Trade>> Engine<S, O, M> {
    /// A known stock. Whatever calls led to this engine's book, its sums keep the laws over runs.
    pub fn stock(&self, locate: u16) -> Result<Stock, BookFault>
        ensures value { result ≡ stock (engine_book S.Holds O.Holds M.Holds self.now) locate 0 }
        ensures laws { (m : Moment) → book_of m ≡ engine_book S.Holds O.Holds M.Holds self.now → StockLaws m locate result }
    {
        self.known_stock(locate)
    }

    // A known stock: a reading has no message that a place could point into.
    fn known_stock(&self, locate: u16) -> Result<Stock, BookFault>
        ensures { result ≡ stock (engine_book S.Holds O.Holds M.Holds self.now) locate 0 }
    {
        self.ledger
            .stocks
            .get(locate as u64)
            .ok_or(BookFault::UnknownLocate(0))
    }

    /// The known stock with the smallest locate at or above `locate`, and that locate.
    pub fn stock_from(&self, locate: u64) -> Option<(u64, Stock)>
        ensures { result ≡ from (engine_book S.Holds O.Holds M.Holds self.now).stocks.pairs locate }
    {
        self.ledger.stocks.first_from(locate)
    }

    /// The known stocks with their locates, in rising order of these.
    pub fn stocks(&self) -> PairIter<'_, Stock, S>
        ensures all { result ≡ (engine_book S.Holds O.Holds M.Holds self.now).stocks.pairs }
        ensures runs { YieldsInOrder (YieldsFirst {A = ℕ × Stock} (λ rest. rest)) (λ rest. rest) }
    {
        pairs(&self.ledger.stocks)
    }

    /// The best bid and offer of a known stock, each with all open shares at its price.
    pub fn quote(&self, locate: u16) -> Result<Quote, BookFault>
        ensures answer { result ≡ quote (engine_book S.Holds O.Holds M.Holds self.now) locate }
        ensures relation { QuoteRule (engine_book S.Holds O.Holds M.Holds self.now) locate result }
        ensures laws { (m : Moment) → book_of m ≡ engine_book S.Holds O.Holds M.Holds self.now → QuoteLaws m locate result }
    {
        self.best_of(locate)
    }

    // The levels, if the stock is known. Apart from `quote`, whose laws are then proved of this answer.
    fn best_of(&self, locate: u16) -> Result<Quote, BookFault>
        ensures answer { result ≡ quote (engine_book S.Holds O.Holds M.Holds self.now) locate }
        ensures relation { QuoteRule (engine_book S.Holds O.Holds M.Holds self.now) locate result }
    {
        self.known_stock(locate)?;
        Ok(best_levels(&self.ledger.orders, locate))
    }

    /// An open order.
    pub fn order(&self, reference: u64) -> Option<Order>
        ensures { result ≡ find (engine_book S.Holds O.Holds M.Holds self.now).orders reference }
    {
        self.ledger.orders.get(reference)
    }

    /// The last match number, its standing and the steps taken, from a match number through its corrections.
    pub fn trace(&self, match_number: u64) -> Option<(u64, Standing, u64)>
        ensures value { result ≡ trace (engine_book S.Holds O.Holds M.Holds self.now).trades match_number }
        ensures laws { (m : Moment) → book_of m ≡ engine_book S.Holds O.Holds M.Holds self.now → TraceLaws m match_number result }
    {
        self.followed(match_number)
    }

    // The walk through the corrections: it takes no more steps than there are trades. A rule of the project: it falls by a measure.
    fn followed(&self, match_number: u64) -> Option<(u64, Standing, u64)>
        ensures { result ≡ trace (engine_book S.Holds O.Holds M.Holds self.now).trades match_number }
    {
        let count = self.ledger.trades.count();
        let mut number = match_number;
        let mut steps = 0;
        while steps < count {
            match self.ledger.trades.get(number)?.standing {
                Standing::Corrected(next) => number = next,
                standing => return Some((number, standing, steps as u64)),
            }
            steps += 1;
        }
        None
    }
}
