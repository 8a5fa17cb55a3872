//! A whole day, from its capture to its report.

ghost use Rattle.std.specs.Prelude.{◌≡◌};
ghost use Rattle.book.specs.Book.{fresh};
ghost use Rattle.book.specs.Play.{played};
ghost use Rattle.day.specs.Texts.{told_day, texted, text_after};

use crate::playing::play;
use crate::texts::put_day;
use book::fault::BookFault;
use book::value::{Order, Stock, Trade};
use engine::making::Engine;
use store::Store;

/// Plays a capture from its first pair over these stores, which are emptied first, and writes the fault's line, if it is
/// refused, and then the report. Answers how many bytes.
pub fn run<S: Store<Stock> + Drop, O: Store<Order> + Drop, M: Store<Trade> + Drop>(
    stocks: S,
    orders: O,
    trades: M,
    capture: &[u8],
    buf: &mut [u8],
) -> Result<usize, BookFault>
    ensures answer { result ≡ texted (told_day (played (fresh (S.Holds.held stocks).places (O.Holds.held orders).places (M.Holds.held trades).places) capture.now 0)) buf.old }
    ensures after { buf.new ≡ text_after (told_day (played (fresh (S.Holds.held stocks).places (O.Holds.held orders).places (M.Holds.held trades).places) capture.now 0)) buf.old }
{
    let mut engine = Engine::new(stocks, orders, trades);
    let fault = play(&mut engine, capture, 0).err();
    put_day(&engine, fault, buf)
}
