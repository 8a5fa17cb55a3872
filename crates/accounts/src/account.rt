//! A stock's account, kept from the accepted messages alone.

/// The price and the shares of an order or a trade.
#[derive(Clone, Copy, PartialEq, Eq, Default)]
pub struct Figures {
    pub price: u64,
    pub shares: u32,
}

/// What came and went of trades, in shares or in price times shares. A correction undoes one trade and does another anew.
#[derive(Clone, Copy, PartialEq, Eq, Default)]
pub struct Flow {
    pub executed: u64,
    pub broken: u64,
    pub undone: u64,
    pub redone: u64,
}

/// What the accepted messages of a stock sum up to.
#[derive(Clone, Copy, PartialEq, Eq, Default)]
pub struct Account {
    pub added: u64,
    pub removed: u64,
    pub volume: Flow,
    pub turnover: Flow,
}
