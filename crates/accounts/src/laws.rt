//! The laws: the engine's readings against an account.

ghost use Rattle.std.specs.Prelude.{◌≡◌, ◌+◌, ◌==◌};
ghost use Rattle.accounts.specs.Account.{open_law, trade_law};

use crate::account::{Account, Flow};

/// Whether a reading with what was lost is what was gained.
fn balances(reading: u64, lost: u64, lost_too: u64, gained: u64, gained_too: u64) -> bool
    ensures { result ≡ (reading + lost + lost_too == gained + gained_too) }
{
    reading as u128 + lost as u128 + lost_too as u128 == gained as u128 + gained_too as u128
}

impl Account {
    /// Open shares are those added, less those executed and those removed.
    pub fn open_shares_balance(self, reading: u64) -> bool
        ensures { result ≡ open_law self reading }
    {
        balances(reading, self.volume.executed, self.removed, self.added, 0)
    }
}

impl Flow {
    /// Live trades are those executed, less those broken, and the net of corrections.
    pub fn balances(self, reading: u64) -> bool
        ensures { result ≡ trade_law self reading }
    {
        balances(
            reading,
            self.broken,
            self.undone,
            self.executed,
            self.redone,
        )
    }
}
