//! Questions that several messages must pass.

ghost use Rattle.std.specs.Prelude.{◌≡◌};
ghost use Rattle.book.specs.Book.{owned, placed, unless};

use book::fault::BookFault;
use book::value::Stock;
use store::PutRefusal;

/// Refuses if the test says so: the book's questions ask for what is wrong, where those on fields ask for what is right.
pub fn unless(refused: bool, fault: BookFault) -> Result<(), BookFault>
    ensures { result ≡ unless refused fault }
{
    if refused { Err(fault) } else { Ok(()) }
}

/// A store's refusal as the book's.
pub fn placed(
    put: Result<(), PutRefusal>,
    present: BookFault,
    full: BookFault,
) -> Result<(), BookFault>
    ensures { result ≡ placed put present full }
{
    put.map_err(|refusal| match refusal {
        PutRefusal::Present => present,
        PutRefusal::Full => full,
    })
}

/// Whether the symbol is the stock's own.
pub fn owned(stock: &Stock, symbol: &[u8], place: usize) -> Result<(), BookFault>
    ensures { result ≡ owned stock.now symbol.now place }
{
    unless(
        stock.listing.symbol.as_slice() != symbol,
        BookFault::OtherSymbol(place),
    )
}
