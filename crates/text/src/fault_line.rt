//! The line that tells of a refused capture.

ghost use Rattle.std.specs.Prelude.{◌≡◌, ◌+◌, ◌≤◌, length, decimal};
ghost use Rattle.text.specs.FaultLine.{fault_line};
ghost use Rattle.text.specs.Pieces.{pieces_text};
ghost use Rattle.text.specs.Placed.{Placed};

use crate::TooShort;
use crate::pieces::{Piece, number, pieces_width, put_pieces};

/// What the line tells: the fault's number, and its place and pair in the capture. A line is for a buyer to read, so no enum stands here.
#[derive(Clone, Copy, PartialEq, Eq)]
pub struct FaultLine {
    pub number: u8,
    pub place: u64,
    pub pair: u64,
}

impl FaultLine {
    /// How many bytes the line takes.
    pub fn width(&self) -> usize
        ensures value { result ≡ length (fault_line self.now.number self.now.place self.now.pair) }
        ensures sum { result ≡ 20 + length (decimal self.now.number) + length (decimal self.now.place) + length (decimal self.now.pair) }
    {
        pieces_width(&self.pieces())
    }

    /// Writes "fault N place P pair K" and the end of the line to the front, and answers how many bytes.
    pub fn put(&self, buf: &mut [u8]) -> Result<usize, TooShort>
        ensures { Placed buf.old 0 (fault_line self.now.number self.now.place self.now.pair) buf.new result }
    {
        put_pieces(buf, 0, &self.pieces())
    }

    fn pieces(&self) -> [Piece<'static>; 7]
        ensures text { pieces_text result ≡ fault_line self.now.number self.now.place self.now.pair }
        ensures bound { length (fault_line self.now.number self.now.place self.now.pair) ≤ 20 + 60 }
    {
        [
            Piece::Text(b"fault "),
            number(self.number as u64),
            Piece::Text(b" place "),
            number(self.place),
            Piece::Text(b" pair "),
            number(self.pair),
            Piece::Text(b"\n"),
        ]
    }
}
