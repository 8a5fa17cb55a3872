//! Trading states, restrictions and standings in words.

ghost use Rattle.std.specs.Prelude.{Some};
ghost use Rattle.book.specs.Words.{state_words, restriction_words, standing_words};

use crate::value::{ShortSale, Standing, TradingState};
use std::fmt;

impl fmt::Display for TradingState {
    ghost output = { λ state. Some (state_words state) };

    fn fmt<W: fmt::Write>(&self, f: &mut fmt::Formatter<W>) -> fmt::Result {
        f.write_str(match self {
            TradingState::Halted => "halted",
            TradingState::Trading => "trading",
        })
    }
}

impl fmt::Display for ShortSale {
    ghost output = { λ restriction. Some (restriction_words restriction) };

    fn fmt<W: fmt::Write>(&self, f: &mut fmt::Formatter<W>) -> fmt::Result {
        f.write_str(match self {
            ShortSale::NoPriceTest => "no price test",
            ShortSale::Restricted => "restricted",
            ShortSale::StillRestricted => "still restricted",
        })
    }
}

impl fmt::Display for Standing {
    ghost output = { λ standing. Some (standing_words standing) };

    fn fmt<W: fmt::Write>(&self, f: &mut fmt::Formatter<W>) -> fmt::Result {
        f.write_str(match self {
            Standing::Live => "live",
            Standing::Broken => "broken",
            Standing::Corrected(_) => "corrected",
        })
    }
}
