//! The quote over both tables.

use book::fault::BookFault;
use book::value::{Level, Order, Quote, Stock, Trade};
use engine::making::Engine;
use loose::Loose;
use ordered::Ordered;
use std::process::Abort;
use store::Store;

/// Transmission starts, and the stocks A and B enter under 1 and 2.
const START: &[u8; 12] = b"S\0\0\0\0\0\0\0\0\0\x01O";

const STOCK_A: &[u8; 25] = b"R\0\x01\0\0\0\0\0\0\0\x02A       N\0\0\0\x64P";

const STOCK_B: &[u8; 25] = b"R\0\x02\0\0\0\0\0\0\0\x03B       N\0\0\0\x64P";

/// The order 9 executed whole, 7 replaced by 20 (40 shares at 48), 8 by 21 (5 shares at 48), 10 deleted.
const EXECUTE_9: &[u8; 31] =
    b"E\0\x01\0\0\0\0\0\0\0\x04\0\0\0\0\0\0\0\x09\0\0\0\x0F\0\0\0\0\0\0\0\x01";

const REPLACE_7: &[u8; 39] =
    b"U\0\x01\0\0\0\0\0\0\0\x05\0\0\0\0\0\0\0\x07\0\0\0\0\0\0\0\x14\0\0\0\x28\0\0\0\0\0\0\0\x30";

const REPLACE_8: &[u8; 39] =
    b"U\0\x01\0\0\0\0\0\0\0\x06\0\0\0\0\0\0\0\x08\0\0\0\0\0\0\0\x15\0\0\0\x05\0\0\0\0\0\0\0\x30";

const DELETE_10: &[u8; 19] = b"D\0\x01\0\0\0\0\0\0\0\x07\0\0\0\0\0\0\0\x0A";

/// Places for two stocks, ten orders and one trade.
const NO_STOCK: Option<(u64, Stock)> = None;

const NO_ORDER: Option<(u64, Order)> = None;

const NO_TRADE: Option<(u64, Trade)> = None;

type PriceAndShares = Option<(u64, u64)>;

/// An order of A under 1, or of B under 2.
fn add(locate: u8, reference: u64, side: u8, shares: u8, price: u8) -> [u8; 40] {
    let name = if locate == 1 { b'A' } else { b'B' };
    let [a, b, c, d, e, f, g, h] = reference.to_be_bytes();
    [
        b'A', 0, locate, 0, 0, 0, 0, 0, 0, 0, 4, a, b, c, d, e, f, g, h, side, 0, 0, 0, shares,
        name, b' ', b' ', b' ', b' ', b' ', b' ', b' ', 0, 0, 0, 0, 0, 0, 0, price,
    ]
}

/// A price with all open shares at it.
fn level((price, shares): (u64, u64)) -> Level {
    Level { price, shares }
}

/// The quote of a known stock is this bid and this offer.
fn quotes<S: Store<Stock>, O: Store<Order>, M: Store<Trade>>(
    engine: &Engine<S, O, M>,
    locate: u16,
    bid: PriceAndShares,
    offer: PriceAndShares,
) -> bool {
    let quote = Quote {
        bid: bid.map(level),
        offer: offer.map(level),
    };
    engine.quote(locate) == Ok(quote)
}

/// An unknown locate is refused; a stock without orders has neither side.
fn empty<S: Store<Stock>, O: Store<Order>, M: Store<Trade>>(
    rt: &impl Abort,
    engine: &mut Engine<S, O, M>,
) {
    assert!(rt; engine.feed(START).is_ok());
    assert!(rt; engine.feed(STOCK_A).is_ok());
    assert!(rt; engine.feed(STOCK_B).is_ok());
    assert!(rt; quotes(engine, 1, None, None));
    let refused = engine.quote(3).err();
    assert!(rt; refused.map(BookFault::number) == Some(12));
    assert!(rt; refused.map(BookFault::place) == Some(0));
}

/// Equal prices add up, the better one wins, and the other stock's orders are its own.
fn filled<S: Store<Stock>, O: Store<Order>, M: Store<Trade>>(
    rt: &impl Abort,
    engine: &mut Engine<S, O, M>,
) {
    assert!(rt; engine.feed(&add(1, 7, b'B', 100, 50)).is_ok());
    assert!(rt; quotes(engine, 1, Some((50, 100)), None));
    assert!(rt; engine.feed(&add(1, 8, b'B', 20, 50)).is_ok());
    assert!(rt; engine.feed(&add(1, 10, b'B', 30, 49)).is_ok());
    assert!(rt; quotes(engine, 1, Some((50, 120)), None));
    assert!(rt; engine.feed(&add(1, 0, b'S', 10, 60)).is_ok());
    assert!(rt; engine.feed(&add(1, 9, b'S', 15, 55)).is_ok());
    assert!(rt; quotes(engine, 1, Some((50, 120)), Some((55, 15))));
    assert!(rt; engine.feed(&add(2, 1, b'B', 99, 54)).is_ok());
    assert!(rt; quotes(engine, 1, Some((50, 120)), Some((55, 15))));
    assert!(rt; quotes(engine, 2, Some((54, 99)), None));
}

/// An order executed to zero leaves its level, a replaced one moves, and the largest reference counts.
fn moved<S: Store<Stock>, O: Store<Order>, M: Store<Trade>>(
    rt: &impl Abort,
    engine: &mut Engine<S, O, M>,
) {
    assert!(rt; engine.feed(EXECUTE_9).is_ok());
    assert!(rt; quotes(engine, 1, Some((50, 120)), Some((60, 10))));
    assert!(rt; engine.feed(REPLACE_7).is_ok());
    assert!(rt; quotes(engine, 1, Some((50, 20)), Some((60, 10))));
    assert!(rt; engine.feed(REPLACE_8).is_ok());
    assert!(rt; quotes(engine, 1, Some((49, 30)), Some((60, 10))));
    assert!(rt; engine.feed(DELETE_10).is_ok());
    assert!(rt; quotes(engine, 1, Some((48, 45)), Some((60, 10))));
    assert!(rt; engine.feed(&add(1, u64::MAX, b'B', 3, 48)).is_ok());
    assert!(rt; quotes(engine, 1, Some((48, 48)), Some((60, 10))));
    assert!(rt; quotes(engine, 2, Some((54, 99)), None));
}

fn a_day<S: Store<Stock> + Drop, O: Store<Order> + Drop, M: Store<Trade> + Drop>(
    rt: &impl Abort,
    stocks: S,
    orders: O,
    trades: M,
) {
    let mut engine = Engine::new(stocks, orders, trades);
    empty(rt, &mut engine);
    filled(rt, &mut engine);
    moved(rt, &mut engine);
}

// A test for each table: the slots are lent for as long as the table lives, so a test over both would lend them through a closure.
#[test]
fn quotes_over_ordered_tables(rt: HostRuntime) {
    let mut stocks = [NO_STOCK; 2];
    let mut orders = [NO_ORDER; 10];
    let mut trades = [NO_TRADE; 1];
    a_day(
        &rt,
        Ordered::over(&mut stocks),
        Ordered::over(&mut orders),
        Ordered::over(&mut trades),
    );
}

#[test]
fn quotes_over_loose_tables(rt: HostRuntime) {
    let mut stocks = [NO_STOCK; 2];
    let mut orders = [NO_ORDER; 10];
    let mut trades = [NO_TRADE; 1];
    a_day(
        &rt,
        Loose::over(&mut stocks),
        Loose::over(&mut orders),
        Loose::over(&mut trades),
    );
}
