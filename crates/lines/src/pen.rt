//! A pen over a lent buffer, which goes on as it writes.

ghost use Rattle.std.specs.Prelude.{◌≡◌, ◌+◌, ◌≤◌, [], ◌∷◌, ◌++◌, length, decimal};
ghost use Rattle.lines.specs.Line.{code_text, symbol_text};
ghost use Rattle.lines.specs.Writing.{Writes};

use text::line::symbol_len;
use text::number::{put_number, put_text};

/// The buffer, and the place that is written next. What is written must have room: a line asks for it before its first byte.
#[derive(Drop)]
pub(crate) struct Pen<'b> {
    pub(crate) buf: &'b mut [u8],
    pub(crate) at: usize,
}

impl Pen<'_> {
    /// Bytes as they are.
    pub(crate) fn plain(&mut self, bytes: &[u8])
        requires { self.old.at + length bytes.now ≤ length self.old.buf.now }
        ensures writes { Writes self.old (bytes.now ∷ []) self.new }
        ensures end { self.new.at ≡ self.old.at + length bytes.now }
    {
        let Ok(end) = put_text(self.buf, self.at, bytes) else {
            unreachable!()
        };
        self.at = end;
    }

    /// A label and a number.
    pub(crate) fn number(&mut self, label: &[u8], n: u64)
        requires { self.old.at + length label.now + 20 ≤ length self.old.buf.now }
        ensures writes { Writes self.old ((label.now ++ decimal n) ∷ []) self.new }
        ensures bound { self.new.at ≤ self.old.at + length label.now + 20 }
    {
        self.plain(label);
        let Ok(end) = put_number(self.buf, self.at, n) else {
            unreachable!()
        };
        self.at = end;
    }

    /// A label and a code.
    pub(crate) fn code(&mut self, label: &[u8], c: char)
        requires { self.old.at + length label.now + 3 ≤ length self.old.buf.now }
        ensures writes { Writes self.old ((label.now ++ code_text c) ∷ []) self.new }
        ensures bound { self.new.at ≤ self.old.at + length label.now + 3 }
    {
        self.plain(label);
        self.letter(c);
    }

    /// A code alone.
    fn letter(&mut self, c: char)
        requires { self.old.at + 3 ≤ length self.old.buf.now }
        ensures writes { Writes self.old (code_text c ∷ []) self.new }
        ensures end { self.new.at ≡ self.old.at + length (code_text c) }
        ensures bound { self.new.at ≤ self.old.at + 3 }
    {
        match c {
            '!'..='~' => self.plain(&[c as u8]),
            ' ' => self.plain(b"' '"),
            _ => self.plain(b"?"),
        }
    }

    /// A label and a symbol.
    pub(crate) fn symbol(&mut self, label: &[u8], bytes: &[u8])
        requires { self.old.at + length label.now + 8 ≤ length self.old.buf.now }
        ensures writes { Writes self.old ((label.now ++ symbol_text bytes.now) ∷ []) self.new }
        ensures bound { self.new.at ≤ self.old.at + length label.now + 8 }
    {
        self.plain(label);
        self.plain(unfilled(bytes));
    }
}

/// A symbol's bytes before its filling, of eight.
fn unfilled(bytes: &[u8]) -> &[u8]
    ensures value { result.now ≡ symbol_text bytes.now }
    ensures bound { length result.now ≤ 8 }
{
    let eight = &bytes[..bytes.len().min(8)];
    &eight[..symbol_len(eight)]
}
