//! The engine and its making.

ghost use Rattle.std.specs.Prelude.{◌≡◌};
ghost use Rattle.book.specs.Book.{fresh};
ghost use Rattle.engine.specs.Engine.{engine_book};

use book::phase::Phase;
use book::value::{Order, Stock, Trade};
use ledger::keeping::Ledger;
use store::Store;

/// A book over three stores: stocks under their locates, open orders under their references, trades under their match numbers.
#[derive(Drop)]
pub struct Engine<S, O, M> {
    pub(crate) ledger: Ledger<S, O, M>,
}

impl<S: Store<Stock>, O: Store<Order>, M: Store<Trade>> Engine<S, O, M> {
    /// An engine over these stores, which it empties.
    pub fn new(mut stocks: S, mut orders: O, mut trades: M) -> Engine<S, O, M>
        ensures { engine_book S.Holds O.Holds M.Holds result ≡ fresh (S.Holds.held stocks).places (O.Holds.held orders).places (M.Holds.held trades).places }
    {
        stocks.clear();
        orders.clear();
        trades.clear();
        Engine {
            ledger: Ledger {
                stocks,
                orders,
                trades,
                phase: Phase::Before,
                accepted: 0,
            },
        }
    }
}
