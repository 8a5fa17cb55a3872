//! What R, H and Y do: the directory, halts and restrictions.

#![tactic(auto)]

ghost use Rattle.std.specs.Prelude.{◌≡◌};
ghost use Rattle.book.specs.Feed.{Acts};
ghost use Rattle.book.specs.Message.{heard};
ghost use Rattle.book.specs.Stocks.{elsewhere, entered};
ghost use Rattle.ledger.specs.Ledger.{book_in};
ghost use Rattle.wire.specs.Told.{told};

use book::fault::BookFault;
use book::value::{Listing, Order, ShortSale, Stock, Sums, Trade, TradingState};
use ledger::day::due;
use ledger::keeping::Ledger;
use ledger::questions::{owned, unless};
use store::{Store, pairs};
use wire::message::{Directory, Message, Restriction, TradingAction};

/// Whether a stock has this symbol under another locate.
fn elsewhere<S: Store<Stock>>(stocks: &S, locate: u16, symbol: &[u8; 8]) -> bool
    ensures { result ≡ elsewhere (S.Holds.held stocks.now).pairs locate symbol.now }
{
    // Not `any`: tried, and a day of many entries took no less time with it.
    for (other, stock) in pairs(stocks) {
        if other != locate as u64 && stock.listing.symbol == *symbol {
            return true;
        }
    }
    false
}

/// A stock as it enters the book.
fn entered(listing: Listing, stamp: u64) -> Stock
    ensures { result ≡ entered listing stamp }
{
    Stock {
        listing,
        state: TradingState::Halted,
        restriction: None,
        stamp,
        sums: Sums::nothing(),
    }
}

/// R: a stock enters, or its directory fields are replaced.
pub fn list<'a, S: Store<Stock>, O: Store<Order>, M: Store<Trade>>(
    ledger: &mut Ledger<S, O, M>,
    m: &Directory<'a>,
) -> Result<(), BookFault>
    ensures { Acts (book_in S.Holds O.Holds M.Holds ledger.old) (heard (told (Message.Directory m.now))) result (book_in S.Holds O.Holds M.Holds ledger.new) }
{
    due(ledger.phase)?;
    let listing = Listing {
        // Decoding lets no other length through.
        symbol: <[u8; 8]>::try_from(m.stock.bytes).unwrap_or([b' '; 8]),
        category: m.category,
        lot: m.lot,
        authenticity: m.authenticity,
    };
    unless(
        elsewhere(&ledger.stocks, m.head.locate, &listing.symbol),
        BookFault::OtherSymbol(11),
    )?;
    let key = m.head.locate as u64;
    let Some(stock) = ledger.stocks.get(key) else {
        let stock = entered(listing, m.head.stamp);
        return ledger
            .stocks
            .put(key, stock)
            .map_err(|_| BookFault::StocksFull);
    };
    owned(&stock, &listing.symbol, 11)?;
    ledger.keep(m.head, Stock { listing, ..stock });
    Ok(())
}

/// H: a stock is halted or trades.
pub fn act_on_trading<'a, S: Store<Stock>, O: Store<Order>, M: Store<Trade>>(
    ledger: &mut Ledger<S, O, M>,
    m: &TradingAction<'a>,
) -> Result<(), BookFault>
    ensures { Acts (book_in S.Holds O.Holds M.Holds ledger.old) (heard (told (Message.TradingAction m.now))) result (book_in S.Holds O.Holds M.Holds ledger.new) }
{
    let stock = ledger.known(m.head.locate)?;
    owned(&stock, m.stock.bytes, 11)?;
    // Decoding lets no other letter through.
    let state = TradingState::try_from(m.state).unwrap_or(TradingState::Halted);
    ledger.keep(m.head, Stock { state, ..stock });
    Ok(())
}

/// Y: a stock's short sale restriction is told.
pub fn restrict<'a, S: Store<Stock>, O: Store<Order>, M: Store<Trade>>(
    ledger: &mut Ledger<S, O, M>,
    m: &Restriction<'a>,
) -> Result<(), BookFault>
    ensures { Acts (book_in S.Holds O.Holds M.Holds ledger.old) (heard (told (Message.Restriction m.now))) result (book_in S.Holds O.Holds M.Holds ledger.new) }
{
    let stock = ledger.known(m.head.locate)?;
    owned(&stock, m.stock.bytes, 11)?;
    // Decoding lets no other letter through.
    let restriction = ShortSale::try_from(m.restriction).unwrap_or(ShortSale::StillRestricted);
    ledger.keep(
        m.head,
        Stock {
            restriction: Some(restriction),
            ..stock
        },
    );
    Ok(())
}
