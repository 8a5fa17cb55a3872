//! What a message's letters say: a side, a trading state, a restriction.

ghost use Rattle.book.specs.Letters.{SideOf, StateOf, RestrictionOf};

use crate::value::{ShortSale, Side, TradingState};

/// A letter that is not one of those listed.
#[derive(Clone, Copy, PartialEq, Eq)]
pub struct Unlisted;

impl TryFrom<char> for Side {
    type Error = Unlisted;

    ghost try_from_gives = { SideOf };

    fn try_from(letter: char) -> Result<Side, Unlisted> {
        match letter {
            'B' => Ok(Side::Buy),
            'S' => Ok(Side::Sell),
            _ => Err(Unlisted),
        }
    }
}

impl TryFrom<char> for TradingState {
    type Error = Unlisted;

    ghost try_from_gives = { StateOf };

    fn try_from(letter: char) -> Result<TradingState, Unlisted> {
        match letter {
            'H' => Ok(TradingState::Halted),
            'T' => Ok(TradingState::Trading),
            _ => Err(Unlisted),
        }
    }
}

impl TryFrom<char> for ShortSale {
    type Error = Unlisted;

    ghost try_from_gives = { RestrictionOf };

    fn try_from(letter: char) -> Result<ShortSale, Unlisted> {
        match letter {
            '0' => Ok(ShortSale::NoPriceTest),
            '1' => Ok(ShortSale::Restricted),
            '2' => Ok(ShortSale::StillRestricted),
            _ => Err(Unlisted),
        }
    }
}
