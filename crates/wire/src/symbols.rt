//! The symbol of a stock.

ghost use Rattle.std.specs.Prelude.{◌≡◌, Decides};
ghost use Rattle.wire.specs.Judging.{judged};
ghost use Rattle.wire.specs.Symbols.{well_formed, SymbolRule};
ghost use Rattle.wire.specs.Table.{symbol};
ghost use Rattle.wire.specs.Told.{of_symbol};

use crate::fault::FieldsFault;
use crate::fields::ask;
use crate::message::Symbol;

/// Are these a symbol: one to eight bytes from 0x21 to 0x7E, followed only by spaces to eight?
// A rule of the project: a `for` over the bytes with their index.
pub fn is_symbol(bytes: &[u8]) -> bool
    ensures test { result ≡ well_formed bytes.now }
    ensures rule { Decides result (SymbolRule bytes.now) }
{
    if bytes.len() != 8 {
        return false;
    }
    let mut ended = false;
    for (i, b) in bytes.iter().enumerate() {
        if b.is_ascii_graphic() {
            if ended {
                return false;
            }
        } else if *b != b' ' || i == 0 {
            return false;
        } else {
            ended = true;
        }
    }
    true
}

impl Symbol<'_> {
    // Question 5, where the field is at this offset.
    pub(crate) fn judge(&self, place: usize) -> Result<(), FieldsFault>
        ensures { result ≡ judged (symbol place) (of_symbol self.now) }
    {
        ask(is_symbol(self.bytes), FieldsFault::BadSymbol(place))
    }
}
