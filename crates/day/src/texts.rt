//! The report, and the line that tells of a refused capture, in a buffer that a buyer lends.

ghost use Rattle.std.specs.Prelude.{◌≡◌, ◌≤◌, length, None};
ghost use Rattle.book.specs.Report.{report};
ghost use Rattle.day.specs.Texts.{fault_text, day_text, front_text, texted, text_after};
ghost use Rattle.engine.specs.Engine.{engine_book};
ghost use Rattle.text.specs.Placed.{written};

use crate::reporting::{fits, put_lines};
use book::fault::{BookFault, PlayFault};
use book::value::{Order, Stock, Trade};
use engine::making::Engine;
use store::Store;
use text::fault_line::FaultLine;

/// Writes a fault's line to the front of the buffer, and answers how many bytes.
pub fn put_fault(fault: PlayFault, buf: &mut [u8]) -> Result<usize, BookFault>
    ensures answer { result ≡ texted (fault_text fault) buf.old }
    ensures after { buf.new ≡ text_after (fault_text fault) buf.old }
{
    let line = FaultLine::from(fault);
    let room = buf.len();
    line.put(buf).map_err(|_| BookFault::ShortBuffer(room))
}

/// Writes the report to the front of the buffer, and answers how many bytes.
pub fn put_report<S: Store<Stock>, O: Store<Order>, M: Store<Trade>>(
    engine: &Engine<S, O, M>,
    buf: &mut [u8],
) -> Result<usize, BookFault>
    ensures answer { result ≡ texted (report (engine_book S.Holds O.Holds M.Holds engine.now)) buf.old }
    ensures after { buf.new ≡ text_after (report (engine_book S.Holds O.Holds M.Holds engine.now)) buf.old }
{
    put_day(engine, None, buf)
}

/// Writes the fault's line, if there is one, and then the report, and answers how many bytes.
pub fn put_day<S: Store<Stock>, O: Store<Order>, M: Store<Trade>>(
    engine: &Engine<S, O, M>,
    fault: Option<PlayFault>,
    buf: &mut [u8],
) -> Result<usize, BookFault>
    ensures answer { result ≡ texted (day_text fault (engine_book S.Holds O.Holds M.Holds engine.now)) buf.old }
    ensures after { buf.new ≡ text_after (day_text fault (engine_book S.Holds O.Holds M.Holds engine.now)) buf.old }
{
    let width = front_width(fault);
    let len = buf.len();
    if len < width || !fits(engine, len - width) {
        return Err(BookFault::ShortBuffer(len));
    }
    put_front(fault, buf);
    Ok(put_lines(engine, buf, width))
}

/// How many bytes stand before the report.
fn front_width(fault: Option<PlayFault>) -> usize
    ensures { result ≡ length (front_text fault) }
{
    fault.map_or(0, |fault| FaultLine::from(fault).width())
}

/// Writes what stands before the report, for which there is room.
fn put_front(fault: Option<PlayFault>, buf: &mut [u8])
    requires { length (front_text fault) ≤ length buf.old }
    ensures { buf.new ≡ written buf.old 0 (front_text fault) }
{
    if let Some(fault) = fault {
        FaultLine::from(fault).put(buf).unwrap();
    }
}
