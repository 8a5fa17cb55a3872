//! The best level of a side, as one order after another joins it.

ghost use Rattle.std.specs.Prelude.{◌≡◌, ◌+◌, ◌^◌, ◌<◌, ◌≤◌, Some};
ghost use Rattle.quotes.specs.Levels.{beats, joined, shares_in, Room, with_order};

use book::value::{Level, Order, Quote, Side};

/// A total with an order's shares.
fn more(total: u64, shares: u32) -> u64
    requires { total + 2 ^ 32 ≤ 2 ^ 64 }
    ensures sum { result ≡ total + shares }
    ensures small { shares < 2 ^ 32 }
{
    total + shares as u64
}

/// Whether `price` is better than `other`: higher to buy, lower to sell.
fn beats(by: Side, price: u64, other: u64) -> bool
    ensures { result ≡ beats by price other }
{
    match by {
        Side::Buy => price > other,
        Side::Sell => price < other,
    }
}

/// The best level of a side once an order of that side has joined it.
fn joined(by: Side, best: Option<Level>, price: u64, shares: u32) -> Option<Level>
    requires { shares_in best + 2 ^ 32 ≤ 2 ^ 64 }
    ensures answer { result ≡ joined by best (Some (record { price = price; shares = shares })) }
    ensures small { shares_in result ≤ shares_in best + 2 ^ 32 }
{
    let Some(level) = best else {
        return Some(Level {
            price,
            shares: more(0, shares),
        });
    };
    if price == level.price {
        return Some(Level {
            price,
            shares: more(level.shares, shares),
        });
    }
    if beats(by, price, level.price) {
        return Some(Level {
            price,
            shares: more(0, shares),
        });
    }
    Some(level)
}

/// The quote of the stock under `locate` once an order has joined it; another stock's order leaves it as it was.
pub(crate) fn with_order(quote: Quote, locate: u16, order: Order) -> Quote
    requires { Room quote 1 }
    ensures answer { result ≡ with_order quote locate order }
    ensures small { (shares_in result.bid ≤ shares_in quote.bid + 2 ^ 32) × (shares_in result.offer ≤ shares_in quote.offer + 2 ^ 32) }
{
    if order.locate != locate {
        return quote;
    }
    match order.side {
        Side::Buy => Quote {
            bid: joined(Side::Buy, quote.bid, order.price, order.shares),
            ..quote
        },
        Side::Sell => Quote {
            offer: joined(Side::Sell, quote.offer, order.price, order.shares),
            ..quote
        },
    }
}
