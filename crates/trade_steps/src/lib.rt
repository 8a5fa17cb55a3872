//! What C and B do: trades are corrected and broken.

#![tactic(auto)]

ghost use Rattle.std.specs.Prelude.{◌≡◌};
ghost use Rattle.book.specs.Feed.{Acts};
ghost use Rattle.book.specs.Message.{heard};
ghost use Rattle.ledger.specs.Ledger.{book_in};
ghost use Rattle.wire.specs.Told.{told};

use book::fault::BookFault;
use book::value::{Order, Standing, Stock, Trade};
use ledger::keeping::Ledger;
use ledger::questions::{placed, unless};
use store::Store;
use wire::message::{Break, Correct, Message};

/// C: a trade is corrected, and a live one stands in for it.
pub fn correct<S: Store<Stock>, O: Store<Order>, M: Store<Trade>>(
    ledger: &mut Ledger<S, O, M>,
    m: &Correct,
) -> Result<(), BookFault>
    ensures { Acts (book_in S.Holds O.Holds M.Holds ledger.old) (heard (told (Message.Correct m.now))) result (book_in S.Holds O.Holds M.Holds ledger.new) }
{
    let stock = ledger.known(m.head.locate)?;
    let old = ledger.trade(m.head.locate, m.match_number)?;
    unless(old.standing != Standing::Live, BookFault::NotLive)?;
    let new = Trade {
        locate: m.head.locate,
        price: m.price,
        shares: m.shares,
        step: old.step.saturating_add(1),
        standing: Standing::Live,
    };
    placed(
        ledger.trades.put(m.new_match_number, new),
        BookFault::MatchUsed(19),
        BookFault::MatchesFull(19),
    )?;
    let corrected = Trade {
        standing: Standing::Corrected(m.new_match_number),
        ..old
    };
    let _ = ledger.trades.change(m.match_number, corrected);
    let sums = stock
        .sums
        .untraded(old.price, old.shares)
        .traded(m.price, m.shares);
    ledger.keep(m.head, Stock { sums, ..stock });
    Ok(())
}

/// B: a trade is broken for good.
pub fn break_trade<S: Store<Stock>, O: Store<Order>, M: Store<Trade>>(
    ledger: &mut Ledger<S, O, M>,
    m: &Break,
) -> Result<(), BookFault>
    ensures { Acts (book_in S.Holds O.Holds M.Holds ledger.old) (heard (told (Message.Break m.now))) result (book_in S.Holds O.Holds M.Holds ledger.new) }
{
    let stock = ledger.known(m.head.locate)?;
    let trade = ledger.trade(m.head.locate, m.match_number)?;
    unless(trade.standing != Standing::Live, BookFault::NotLive)?;
    let broken = Trade {
        standing: Standing::Broken,
        ..trade
    };
    let _ = ledger.trades.change(m.match_number, broken);
    let sums = stock.sums.untraded(trade.price, trade.shares);
    ledger.keep(m.head, Stock { sums, ..stock });
    Ok(())
}
