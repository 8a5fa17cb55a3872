//! The last line of a listing.

ghost use Rattle.std.specs.Prelude.{◌≡◌};
ghost use Rattle.lines.specs.Line.{summary as summary_text};
ghost use Rattle.lines.specs.Writing.{Lined};

use crate::line::LINE;
use crate::pen::Pen;
use text::TooShort;

/// Writes "N messages, M refused, K rewritten differ" to the front of the buffer, and answers how many bytes.
/// Refused if the buffer has fewer than 256.
pub fn put_summary(
    buf: &mut [u8],
    messages: usize,
    refused: usize,
    differ: usize,
) -> Result<usize, TooShort>
    ensures { Lined buf.old 0 (summary_text messages refused differ) buf.new result }
{
    if buf.len() < LINE {
        return Err(TooShort);
    }
    let mut pen = Pen { buf, at: 0 };
    pen.number(b"", messages as u64);
    pen.number(b" messages, ", refused as u64);
    pen.number(b" refused, ", differ as u64);
    pen.plain(b" rewritten differ\n");
    Ok(pen.at)
}
