//! What A, E, X, D and U do: orders open, lose shares, leave and give way to others.

#![tactic(auto)]

ghost use Rattle.std.specs.Prelude.{◌≡◌};
ghost use Rattle.book.specs.Feed.{Acts};
ghost use Rattle.book.specs.Message.{heard};
ghost use Rattle.ledger.specs.Ledger.{book_in};
ghost use Rattle.wire.specs.Told.{told};

use book::fault::BookFault;
use book::value::{Order, Side, Standing, Stock, Trade};
use ledger::keeping::Ledger;
use ledger::questions::{owned, placed, unless};
pub use order_cuts::{cancel, delete};
use order_cuts::{reduce, reduced};
use store::{Store, contains};
use wire::message::{Add, Execute, Message, Replace};

/// A: an order opens.
pub fn add<'a, S: Store<Stock>, O: Store<Order>, M: Store<Trade>>(
    ledger: &mut Ledger<S, O, M>,
    m: &Add<'a>,
) -> Result<(), BookFault>
    ensures { Acts (book_in S.Holds O.Holds M.Holds ledger.old) (heard (told (Message.Add m.now))) result (book_in S.Holds O.Holds M.Holds ledger.new) }
{
    let stock = ledger.known(m.head.locate)?;
    owned(&stock, m.stock.bytes, 24)?;
    let order = Order {
        locate: m.head.locate,
        // Decoding lets no other letter through.
        side: Side::try_from(m.side).unwrap_or(Side::Sell),
        price: m.price,
        shares: m.shares,
    };
    placed(
        ledger.orders.put(m.reference, order),
        BookFault::ReferenceOpen(11),
        BookFault::OrdersFull,
    )?;
    let sums = stock.sums.opened(m.shares);
    ledger.keep(m.head, Stock { sums, ..stock });
    Ok(())
}

/// E: shares of an order are executed, and a live trade is made.
pub fn execute<S: Store<Stock>, O: Store<Order>, M: Store<Trade>>(
    ledger: &mut Ledger<S, O, M>,
    m: &Execute,
) -> Result<(), BookFault>
    ensures { Acts (book_in S.Holds O.Holds M.Holds ledger.old) (heard (told (Message.Execute m.now))) result (book_in S.Holds O.Holds M.Holds ledger.new) }
{
    let stock = ledger.known(m.head.locate)?;
    let order = ledger.order(m.head.locate, m.reference)?;
    unless(order.shares < m.shares, BookFault::TooManyShares)?;
    let trade = Trade {
        locate: m.head.locate,
        price: order.price,
        shares: m.shares,
        step: 0,
        standing: Standing::Live,
    };
    placed(
        ledger.trades.put(m.match_number, trade),
        BookFault::MatchUsed(23),
        BookFault::MatchesFull(23),
    )?;
    reduce(&mut ledger.orders, m.reference, order, m.shares);
    let sums = stock.sums.executed(order.price, m.shares);
    let sums = reduced(sums, &order, m.shares);
    ledger.keep(m.head, Stock { sums, ..stock });
    Ok(())
}

/// U: an order leaves, and a new one opens in its place.
pub fn replace<S: Store<Stock>, O: Store<Order>, M: Store<Trade>>(
    ledger: &mut Ledger<S, O, M>,
    m: &Replace,
) -> Result<(), BookFault>
    ensures { Acts (book_in S.Holds O.Holds M.Holds ledger.old) (heard (told (Message.Replace m.now))) result (book_in S.Holds O.Holds M.Holds ledger.new) }
{
    let stock = ledger.known(m.head.locate)?;
    let order = ledger.order(m.head.locate, m.original)?;
    unless(
        contains(&ledger.orders, m.new_reference),
        BookFault::ReferenceOpen(19),
    )?;
    let _ = ledger.orders.take_out(m.original);
    let new = Order {
        price: m.price,
        shares: m.shares,
        ..order
    };
    let _ = ledger.orders.put(m.new_reference, new);
    let sums = stock
        .sums
        .removed(order.shares)
        .lowered(order.shares, true)
        .opened(m.shares);
    ledger.keep(m.head, Stock { sums, ..stock });
    Ok(())
}
