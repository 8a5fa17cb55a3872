//! A text in pieces, which are put into a buffer one after another.

ghost use Rattle.std.specs.Prelude.{◌≡◌, ◌+◌, ◌^◌, ◌<◌, ◌≤◌, length, decimal};
ghost use Rattle.text.specs.Pieces.{piece_text, pieces_text};
ghost use Rattle.text.specs.Placed.{Placed, written};

use crate::TooShort;
use crate::number::{put_digits, width};

/// Bytes as they are, or a number in shortest decimal form.
#[derive(Clone, Copy)]
pub enum Piece<'a> {
    Text(&'a [u8]),
    Number(u64),
}

/// A number, which takes at most 20 bytes.
pub fn number(value: u64) -> Piece<'static>
    ensures text { piece_text result ≡ decimal value }
    ensures bound { length (decimal value) ≤ 20 }
{
    Piece::Number(value)
}

/// Writes the pieces from `at` on, and answers where they end. A refused text changes nothing, so its width is needed before its first
/// byte, which a writer that goes on by itself does not know.
pub fn put_pieces(buf: &mut [u8], at: usize, pieces: &[Piece<'_>]) -> Result<usize, TooShort>
    ensures { Placed buf.old at (pieces_text pieces.now) buf.new result }
{
    let mut room = buf.len().checked_sub(at).ok_or(TooShort)?;
    for piece in pieces {
        room = room.checked_sub(piece_width(piece)).ok_or(TooShort)?;
    }
    let mut end = at;
    for piece in pieces {
        end = put_piece(buf, end, piece);
    }
    Ok(end)
}

/// Writes one piece from `at` on, and answers where it ends.
// Not `put_pieces` of one: a listing writes each of its texts by this, and takes twice as long with lists.
#[inline(always)]
pub(crate) fn put_one(buf: &mut [u8], at: usize, piece: Piece<'_>) -> Result<usize, TooShort>
    ensures { Placed buf.old at (piece_text piece.entry) buf.new result }
{
    let room = buf.len().checked_sub(at).ok_or(TooShort)?;
    if room < piece_width(&piece) {
        return Err(TooShort);
    }
    Ok(put_piece(buf, at, &piece))
}

/// How many bytes the pieces take.
pub(crate) fn pieces_width(pieces: &[Piece<'_>]) -> usize
    requires { length (pieces_text pieces.now) < 2 ^ 64 }
    ensures { result ≡ length (pieces_text pieces.now) }
{
    let mut sum = 0;
    for piece in pieces {
        sum += piece_width(piece);
    }
    sum
}

/// How many bytes a piece takes.
#[inline(always)]
fn piece_width(piece: &Piece<'_>) -> usize
    ensures { result ≡ length (piece_text piece.now) }
{
    match piece {
        Piece::Text(text) => text.len(),
        Piece::Number(n) => width(*n),
    }
}

/// Writes a piece for which there is room, and answers where it ends.
#[inline(always)]
fn put_piece(buf: &mut [u8], at: usize, piece: &Piece<'_>) -> usize
    requires { at + length (piece_text piece.now) ≤ length buf.old }
    ensures end { result ≡ at + length (piece_text piece.now) }
    ensures after { buf.new ≡ written buf.old at (piece_text piece.now) }
{
    let end = at + piece_width(piece);
    match piece {
        Piece::Text(text) => buf[at..end].copy_from_slice(text),
        Piece::Number(n) => put_digits(&mut buf[at..end], *n),
    }
    end
}
