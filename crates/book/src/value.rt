//! What the stores keep: stocks, open orders and trades.

/// Whether a stock trades.
#[derive(Clone, Copy, PartialEq, Eq)]
pub enum TradingState {
    Halted,
    Trading,
}

/// A stock's short sale restriction.
#[derive(Clone, Copy, PartialEq, Eq)]
pub enum ShortSale {
    NoPriceTest,
    Restricted,
    StillRestricted,
}

#[derive(Clone, Copy, PartialEq, Eq)]
pub enum Side {
    Buy,
    Sell,
}

/// What the directory tells of a stock: its symbol filled with spaces, and the letters as they stand in it.
#[derive(Clone, Copy, PartialEq, Eq)]
pub struct Listing {
    pub symbol: [u8; 8],
    pub category: char,
    pub lot: u32,
    pub authenticity: char,
}

/// The sums of a stock's messages, its open orders and its live trades.
#[derive(Clone, Copy, PartialEq, Eq, Default)]
pub struct Sums {
    pub added: u64,
    pub executed: u64,
    pub removed: u64,
    pub open_shares: u64,
    pub open_orders: u64,
    pub live_trades: u64,
    pub live_volume: u64,
    pub turnover: u64,
}

/// A stock, under its locate. `stamp` is the time stamp of its last accepted message.
#[derive(Clone, Copy, PartialEq, Eq)]
pub struct Stock {
    pub listing: Listing,
    pub state: TradingState,
    pub restriction: Option<ShortSale>,
    pub stamp: u64,
    pub sums: Sums,
}

/// An open order, under its reference.
#[derive(Clone, Copy, PartialEq, Eq)]
pub struct Order {
    pub locate: u16,
    pub side: Side,
    pub price: u64,
    pub shares: u32,
}

/// Whether a trade counts; a corrected one names the match number that stands in for it.
#[derive(Clone, Copy, PartialEq, Eq)]
pub enum Standing {
    Live,
    Broken,
    Corrected(u64),
}

/// A trade, under its match number. `step` counts the corrections that led to it.
#[derive(Clone, Copy, PartialEq, Eq)]
pub struct Trade {
    pub locate: u16,
    pub price: u64,
    pub shares: u32,
    pub step: u64,
    pub standing: Standing,
}

/// A price with all open shares at it.
#[derive(Clone, Copy, PartialEq, Eq)]
pub struct Level {
    pub price: u64,
    pub shares: u64,
}

/// A stock's best bid and offer, each absent where the side has no open order.
#[derive(Clone, Copy, PartialEq, Eq)]
pub struct Quote {
    pub bid: Option<Level>,
    pub offer: Option<Level>,
}
