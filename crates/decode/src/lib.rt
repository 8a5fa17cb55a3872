//! Decoding: from bytes of a feed to a message.

#![tactic(auto)]

ghost use Rattle.std.specs.Prelude.{◌≡◌, ◌+◌, ◌<◌, ◌≤◌, length, IfOk, Ok};
ghost use Rattle.wire.specs.Judging.{row_judged};
ghost use Rattle.wire.specs.Kinds.{row_of};
ghost use Rattle.wire.specs.Layout.{bytes_of};
ghost use Rattle.wire.specs.Table.{every_field};
ghost use Rattle.wire.specs.Told.{with_head, told};
ghost use Rattle.decode.specs.Decoding.{values, decoding, told_in};
ghost use Rattle.decode.specs.Rest.{rest_values};

use wire::fault::{BytesFault, WireFault};
use wire::kind::Kind;
use wire::message::{Feed, Head, Message};

mod reading;

// A message of this kind, from its head and the bytes after it.
fn read(kind: Kind, head: Head, rest: &[u8]) -> Message<'_>
    requires { length rest.now + 11 ≡ (row_of kind).size }
    ensures { told result ≡ (row_of kind, with_head head (rest_values rest.now (row_of kind).fields)) }
{
    match kind {
        Kind::Event => Message::Event(reading::event(head, rest)),
        Kind::Directory => Message::Directory(reading::directory(head, rest)),
        Kind::TradingAction => Message::TradingAction(reading::trading_action(head, rest)),
        Kind::Restriction => Message::Restriction(reading::restriction(head, rest)),
        Kind::Add => Message::Add(reading::add(head, rest)),
        Kind::Execute => Message::Execute(reading::execute(head, rest)),
        Kind::Cancel => Message::Cancel(reading::cancel(head, rest)),
        Kind::Delete => Message::Delete(reading::delete(head, rest)),
        Kind::Replace => Message::Replace(reading::replace(head, rest)),
        Kind::Correct => Message::Correct(reading::correct(head, rest)),
        Kind::Break => Message::Break(reading::broken(head, rest)),
        Kind::Quote => Message::Quote(reading::quote(head, rest)),
        Kind::Sale => Message::Sale(reading::sale(head, rest)),
        Kind::SaleCancel => Message::SaleCancel(reading::sale(head, rest)),
    }
}

// Takes a message apart: its letter, two bytes of locate, eight of time stamp, and the rest.
// A rule of the project: by a slice pattern.
fn take_apart(kind: Kind, bytes: &[u8]) -> Message<'_>
    requires { (length bytes.now ≡ (row_of kind).size) × (11 ≤ length bytes.now) }
    ensures { told result ≡ (row_of kind, values bytes.now (every_field (row_of kind))) }
{
    let [_, l0, l1, t0, t1, t2, t3, t4, t5, t6, t7, rest @ ..] = bytes else {
        unreachable!()
    };
    let locate = u16::from_be_bytes([*l0, *l1]);
    let stamp = u64::from_be_bytes([*t0, *t1, *t2, *t3, *t4, *t5, *t6, *t7]);
    read(kind, Head { locate, stamp }, rest)
}

/// The message that bytes of a feed hold, or the first question that they do not pass.
/// What is decoded is what those bytes write.
pub fn decode(feed: Feed, bytes: &[u8]) -> Result<Message<'_>, WireFault>
    ensures answer { told_in result ≡ decoding feed bytes.now }
    ensures passed { IfOk result (λ m. row_judged (told m).0 (told m).1 ≡ Ok tt) }
    ensures back { IfOk result (λ m. bytes_of (told m) ≡ bytes.now) }
{
    let letter = bytes.first().ok_or(BytesFault::Empty)?;
    let kind = Kind::named(feed, *letter as char).ok_or(BytesFault::NotInFeed)?;
    if bytes.len() != kind.size() {
        return Err(BytesFault::WrongLength(bytes.len().min(kind.size())).into());
    }
    let message = take_apart(kind, bytes);
    message.judge()?;
    Ok(message)
}
