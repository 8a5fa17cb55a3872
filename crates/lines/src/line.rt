//! A message's line, into a buffer that a buyer lends.

ghost use Rattle.std.specs.Prelude.{◌≡◌, ◌+◌, ◌≤◌, [], ◌∷◌, length, IfOk};
ghost use Rattle.decode.specs.Decoding.{told_in};
ghost use Rattle.lines.specs.Line.{decoded_text, refusal_text, line as line_text};
ghost use Rattle.lines.specs.Writing.{Writes, Lined};

use crate::messages;
use crate::pen::Pen;
use text::TooShort;
use wire::fault::WireFault;
use wire::message::Message;

/// The room that a line asks for. No line is longer.
pub const LINE: usize = 256;

/// Writes the line of a decoded or refused message from `at` on, and answers where it ends.
/// Refused if fewer than 256 bytes are left there.
pub fn put_line(
    buf: &mut [u8],
    at: usize,
    pair: usize,
    decoded: &Result<Message<'_>, WireFault>,
) -> Result<usize, TooShort>
    ensures lined { Lined buf.old at (line_text pair (told_in decoded.now)) buf.new result }
    ensures bound { IfOk result (λ end. end ≤ length buf.old) }
{
    if buf.len() < LINE || buf.len() - LINE < at {
        return Err(TooShort);
    }
    let mut pen = Pen { buf, at };
    pen.number(b"", pair as u64);
    body(&mut pen, decoded);
    pen.plain(b"\n");
    Ok(pen.at)
}

/// What was decoded, or why it is refused, where there is room for it.
fn body(pen: &mut Pen<'_>, decoded: &Result<Message<'_>, WireFault>)
    requires { pen.old.at + 200 ≤ length pen.old.buf.now }
    ensures writes { Writes pen.old (decoded_text (told_in decoded.now)) pen.new }
    ensures bound { pen.new.at ≤ pen.old.at + 200 }
{
    match decoded {
        Ok(message) => messages::message(pen, message),
        Err(fault) => refusal(pen, *fault),
    }
}

/// A refusal's number and place, where there is room for them.
fn refusal(pen: &mut Pen<'_>, fault: WireFault)
    requires { pen.old.at + 54 ≤ length pen.old.buf.now }
    ensures writes { Writes pen.old (refusal_text fault) pen.new }
    ensures bound { pen.new.at ≤ pen.old.at + 54 }
{
    pen.number(b" fault ", fault.number() as u64);
    pen.number(b" place ", fault.place() as u64);
}
