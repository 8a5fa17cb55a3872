//! A stock's line of the report.

ghost use Rattle.std.specs.Prelude.{◌≡◌, ◌+◌, ◌≤◌, ◌==◌, length, position, take};
ghost use Rattle.text.specs.Line.{line as line_text, size, unfilled};
ghost use Rattle.text.specs.Pieces.{pieces_text};
ghost use Rattle.text.specs.Placed.{Placed};

use crate::TooShort;
use crate::pieces::{Piece, number, pieces_width, put_pieces};

/// What the report tells of one stock.
#[derive(Clone, Copy)]
pub struct Line {
    pub locate: u64,
    pub symbol: [u8; 8],
    pub open_shares: u64,
    pub live_volume: u64,
}

impl Line {
    /// How many bytes the line takes.
    pub fn width(&self) -> usize
        ensures value { result ≡ length (line_text self.now) }
        ensures sum { result ≡ size self.now }
        ensures bound { result ≤ 4 + 60 + length self.now.symbol }
    {
        pieces_width(&self.pieces())
    }

    /// Writes the line from `at` on, and answers where it ends.
    pub fn put(&self, buf: &mut [u8], at: usize) -> Result<usize, TooShort>
        ensures { Placed buf.old at (line_text self.now) buf.new result }
    {
        put_pieces(buf, at, &self.pieces())
    }

    fn pieces(&self) -> [Piece<'_>; 8]
        ensures text { pieces_text result ≡ line_text self.now }
        ensures bound { length (line_text self.now) ≤ 4 + 60 + length self.now.symbol }
    {
        [
            number(self.locate),
            Piece::Text(b" "),
            Piece::Text(&self.symbol[..symbol_len(&self.symbol)]),
            Piece::Text(b" "),
            number(self.open_shares),
            Piece::Text(b" "),
            number(self.live_volume),
            Piece::Text(b"\n"),
        ]
    }
}

/// How many bytes of a symbol stand before its filling.
pub fn symbol_len(symbol: &[u8]) -> usize
    ensures value { result ≡ length (unfilled symbol.now) }
    ensures front { take result symbol.now ≡ unfilled symbol.now }
    ensures bound { result ≤ length symbol.now }
{
    first_space(symbol).unwrap_or(symbol.len())
}

fn first_space(symbol: &[u8]) -> Option<usize>
    ensures { result ≡ position (λ b. b == 32) symbol.now }
{
    symbol.iter().position(|b| *b == b' ')
}
