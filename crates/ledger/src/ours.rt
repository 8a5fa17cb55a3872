//! Whether an order or a trade is of the stock that a message is about.

ghost use Rattle.std.specs.Prelude.{◌≡◌, ℕ};
ghost use Rattle.book.specs.Book.{ours};

use crate::questions::unless;
use book::fault::BookFault;
use book::value::{Order, Trade};

/// What belongs to a stock: an order or a trade.
pub(crate) trait OfStock {
    ghost locate_of: { Self → ℕ };

    /// The stock's locate.
    fn locate(&self) -> u16
        ensures { result ≡ locate_of self.now };
}

impl OfStock for Order {
    ghost locate_of = { λ order. order.locate };

    fn locate(&self) -> u16 {
        self.locate
    }
}

impl OfStock for Trade {
    ghost locate_of = { λ trade. trade.locate };

    fn locate(&self) -> u16 {
        self.locate
    }
}

/// What was found under the number that a message names, if it is there and the message's stock's.
pub(crate) fn ours<V: OfStock + Drop>(
    found: Option<V>,
    locate: u16,
    unknown: BookFault,
) -> Result<V, BookFault>
    ensures { result ≡ ours found V.locate_of locate unknown }
{
    let value = found.ok_or(unknown)?;
    unless(value.locate() != locate, BookFault::OtherLocate)?;
    Ok(value)
}
