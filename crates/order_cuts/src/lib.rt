//! What X and D do: open orders lose shares and leave. Public for `order_steps` alone, whose inside it is.

#![tactic(auto)]

ghost use Rattle.std.specs.Prelude.{◌≡◌};
ghost use Rattle.book.specs.Feed.{Acts};
ghost use Rattle.book.specs.Message.{heard};
ghost use Rattle.book.specs.Orders.{reduce, reduces};
ghost use Rattle.ledger.specs.Ledger.{book_in};
ghost use Rattle.wire.specs.Told.{told};

use book::fault::BookFault;
use book::value::{Order, Stock, Sums, Trade};
use ledger::keeping::Ledger;
use ledger::questions::unless;
use store::Store;
use wire::message::{Cancel, Delete, Message};

/// An order loses shares, and leaves at zero.
pub fn reduce<O: Store<Order>>(orders: &mut O, reference: u64, order: Order, shares: u32)
    ensures { O.Holds.held orders.new ≡ reduce (O.Holds.held orders.old) reference order shares }
{
    let _ = if order.shares <= shares {
        orders.take_out(reference)
    } else {
        orders.change(
            reference,
            Order {
                shares: order.shares - shares,
                ..order
            },
        )
    };
}

/// The sums of a stock whose open order loses shares.
pub fn reduced(sums: Sums, order: &Order, shares: u32) -> Sums
    ensures { result ≡ reduces sums order.now shares }
{
    sums.lowered(shares, order.shares <= shares)
}

/// X: shares of an order are cancelled.
pub fn cancel<S: Store<Stock>, O: Store<Order>, M: Store<Trade>>(
    ledger: &mut Ledger<S, O, M>,
    m: &Cancel,
) -> Result<(), BookFault>
    ensures { Acts (book_in S.Holds O.Holds M.Holds ledger.old) (heard (told (Message.Cancel m.now))) result (book_in S.Holds O.Holds M.Holds ledger.new) }
{
    let stock = ledger.known(m.head.locate)?;
    let order = ledger.order(m.head.locate, m.reference)?;
    unless(order.shares < m.shares, BookFault::TooManyShares)?;
    reduce(&mut ledger.orders, m.reference, order, m.shares);
    let sums = reduced(stock.sums.removed(m.shares), &order, m.shares);
    ledger.keep(m.head, Stock { sums, ..stock });
    Ok(())
}

/// D: an order leaves.
pub fn delete<S: Store<Stock>, O: Store<Order>, M: Store<Trade>>(
    ledger: &mut Ledger<S, O, M>,
    m: &Delete,
) -> Result<(), BookFault>
    ensures { Acts (book_in S.Holds O.Holds M.Holds ledger.old) (heard (told (Message.Delete m.now))) result (book_in S.Holds O.Holds M.Holds ledger.new) }
{
    let stock = ledger.known(m.head.locate)?;
    let order = ledger.order(m.head.locate, m.reference)?;
    let _ = ledger.orders.take_out(m.reference);
    let sums = stock.sums.removed(order.shares).lowered(order.shares, true);
    ledger.keep(m.head, Stock { sums, ..stock });
    Ok(())
}
