//! The lines of the report, stock by stock in rising locate.

ghost use Rattle.std.specs.Prelude.{◌≡◌, ◌+◌, ◌≤◌, length, nat_le};
ghost use Rattle.book.specs.Report.{line_of, report};
ghost use Rattle.engine.specs.Engine.{engine_book};
ghost use Rattle.text.specs.Placed.{written};

use book::value::{Order, Stock, Trade};
use engine::making::Engine;
use store::Store;
use text::line::Line;

/// What the report tells of a stock.
fn line_of(locate: u64, stock: &Stock) -> Line
    ensures { result ≡ line_of locate stock.now }
{
    Line {
        locate,
        symbol: stock.listing.symbol,
        open_shares: stock.sums.open_shares,
        live_volume: stock.sums.live_volume,
    }
}

/// Whether there is room for the whole report.
pub(crate) fn fits<S: Store<Stock>, O: Store<Order>, M: Store<Trade>>(
    engine: &Engine<S, O, M>,
    room: usize,
) -> bool
    ensures { result ≡ nat_le (length (report (engine_book S.Holds O.Holds M.Holds engine.now))) room }
{
    let mut left = room;
    for (locate, stock) in engine.stocks() {
        let needed = line_of(locate, &stock).width();
        if left < needed {
            return false;
        }
        left -= needed;
    }
    true
}

/// Writes the report, for which there is room, from `start` on, and answers where it ends.
pub(crate) fn put_lines<S: Store<Stock>, O: Store<Order>, M: Store<Trade>>(
    engine: &Engine<S, O, M>,
    buf: &mut [u8],
    start: usize,
) -> usize
    requires { start + length (report (engine_book S.Holds O.Holds M.Holds engine.now)) ≤ length buf.old }
    ensures end { result ≡ start + length (report (engine_book S.Holds O.Holds M.Holds engine.now)) }
    ensures after { buf.new ≡ written buf.old start (report (engine_book S.Holds O.Holds M.Holds engine.now)) }
{
    let mut at = start;
    for (locate, stock) in engine.stocks() {
        at = line_of(locate, &stock).put(buf, at).unwrap();
    }
    at
}
