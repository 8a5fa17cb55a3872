//! The quote of a stock: one walk over all open orders keeps the best level of each side.

#![tactic(auto)]

mod levels;

ghost use Rattle.std.specs.Prelude.{◌≡◌};
ghost use Rattle.quotes.specs.Levels.{levels};
ghost use Rattle.quotes.specs.Rule.{LevelsRule};

use crate::levels::with_order;
use book::value::{Order, Quote};
use store::{Store, pairs};

/// The best bid and offer of the stock under `locate`, each with all open shares at its price.
pub fn best_levels<O: Store<Order>>(orders: &O, locate: u16) -> Quote
    ensures answer { result ≡ levels (O.Holds.held orders.now).pairs locate }
    ensures relation { LevelsRule (O.Holds.held orders.now).pairs locate result }
{
    let mut quote = Quote {
        bid: None,
        offer: None,
    };
    for (_, order) in pairs(orders) {
        quote = with_order(quote, locate, order);
    }
    quote
}
