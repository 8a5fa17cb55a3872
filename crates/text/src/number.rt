//! Numbers in shortest decimal form, and bytes as they are.

ghost use Rattle.std.specs.Prelude.{◌≡◌, ◌≤◌, length, decimal};
ghost use Rattle.text.specs.Placed.{Placed};

use crate::TooShort;
use crate::pieces::{Piece, put_one};

/// Writes `n` from `at` on, and answers where the text ends.
pub fn put_number(buf: &mut [u8], at: usize, n: u64) -> Result<usize, TooShort>
    ensures { Placed buf.old at (decimal n) buf.new result }
{
    put_one(buf, at, Piece::Number(n))
}

/// Writes bytes as they are from `at` on, and answers where they end.
pub fn put_text(buf: &mut [u8], at: usize, text: &[u8]) -> Result<usize, TooShort>
    ensures { Placed buf.old at text.now buf.new result }
{
    put_one(buf, at, Piece::Text(text))
}

/// How many digits `n` has.
pub fn width(n: u64) -> usize
    ensures value { result ≡ length (decimal n) }
    ensures bound { result ≤ 20 }
{
    n.max(1).ilog10() as usize + 1
}

/// Fills `to`, which is just as long, with the digits of `n`.
pub(crate) fn put_digits(to: &mut [u8], n: u64)
    requires { length to.old ≡ length (decimal n) }
    ensures { to.new ≡ decimal n }
{
    // By index: what `iter_mut().rev()` has written is not known to a proof.
    let mut rest = n;
    for i in (0..to.len()).rev() {
        to[i] = b'0' + (rest % 10) as u8;
        rest /= 10;
    }
}
