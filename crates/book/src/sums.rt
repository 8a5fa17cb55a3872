//! How a stock's sums change.

ghost use Rattle.std.specs.Prelude.{◌≡◌};
ghost use Rattle.book.specs.Sums.{nothing, opens, lowers, executes, removes, trades, untrades};

use crate::value::Sums;

impl Sums {
    /// A new stock's sums: all zero.
    pub fn nothing() -> Sums
        ensures { result ≡ nothing }
    {
        Sums::default()
    }

    /// An order of `shares` opens.
    pub fn opened(self, shares: u32) -> Sums
        ensures { result ≡ opens self shares }
    {
        let shares = shares as u64;
        Sums {
            added: self.added.saturating_add(shares),
            open_shares: self.open_shares.saturating_add(shares),
            open_orders: self.open_orders.saturating_add(1),
            ..self
        }
    }

    /// An order loses `shares`, and leaves if it is gone. It loses shares either way, so these are no `Option`.
    pub fn lowered(self, shares: u32, gone: bool) -> Sums
        ensures { result ≡ lowers self shares gone }
    {
        Sums {
            open_shares: self.open_shares.saturating_sub(shares as u64),
            open_orders: self.open_orders.saturating_sub(gone as u64),
            ..self
        }
    }

    /// `shares` are executed, and a trade goes live.
    pub fn executed(self, price: u64, shares: u32) -> Sums
        ensures { result ≡ executes self price shares }
    {
        Sums {
            executed: self.executed.saturating_add(shares as u64),
            ..self.traded(price, shares)
        }
    }

    /// `shares` go unexecuted.
    pub fn removed(self, shares: u32) -> Sums
        ensures { result ≡ removes self shares }
    {
        Sums {
            removed: self.removed.saturating_add(shares as u64),
            ..self
        }
    }

    /// A trade goes live.
    pub fn traded(self, price: u64, shares: u32) -> Sums
        ensures { result ≡ trades self price shares }
    {
        let shares = shares as u64;
        Sums {
            live_trades: self.live_trades.saturating_add(1),
            live_volume: self.live_volume.saturating_add(shares),
            turnover: self.turnover.saturating_add(price.saturating_mul(shares)),
            ..self
        }
    }

    /// A trade is live no more.
    pub fn untraded(self, price: u64, shares: u32) -> Sums
        ensures { result ≡ untrades self price shares }
    {
        let shares = shares as u64;
        Sums {
            live_trades: self.live_trades.saturating_sub(1),
            live_volume: self.live_volume.saturating_sub(shares),
            turnover: self.turnover.saturating_sub(price.saturating_mul(shares)),
            ..self
        }
    }
}
