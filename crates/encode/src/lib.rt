//! Writing: from a message to the bytes of a feed.

#![tactic(auto)]

ghost use Rattle.std.specs.Prelude.{◌≡◌, ◌≤◌, length, drop, take, IfOk, Ok};
ghost use Rattle.wire.specs.Table.{every_field};
ghost use Rattle.wire.specs.Told.{told};
ghost use Rattle.decode.specs.Decoding.{decoding};
ghost use Rattle.encode.specs.Laying.{placed, AllNarrow, Put, Widths};
ghost use Rattle.encode.specs.Writing.{writing, buffer as buffer_after, as_written};

use crate::put::{put, put_head};
use wire::fault::{BytesFault, WireFault};
use wire::message::{Feed, Message};

mod put;
mod rows;

// The fields after the time stamp of a message that has passed, into a buffer that is long enough.
fn put_fields(buffer: &mut [u8], message: &Message)
    requires { ((told message.now).0.size ≤ length buffer.old) × (AllNarrow (told message.now).0.fields (drop 2 (told message.now).1)) }
    ensures bytes { buffer.new ≡ placed (told message.now).0.fields (drop 2 (told message.now).1) buffer.old }
    ensures widths { Widths (told message.now).0.fields (drop 2 (told message.now).1) }
{
    match message {
        Message::Event(m) => put(buffer, 11, &[m.event as u8]),
        Message::Directory(m) => rows::directory(buffer, m),
        Message::TradingAction(m) => rows::stock_and_code(buffer, m.stock, m.state),
        Message::Restriction(m) => rows::stock_and_code(buffer, m.stock, m.restriction),
        Message::Add(m) => rows::add(buffer, m),
        Message::Execute(m) => rows::execute(buffer, m),
        Message::Cancel(m) => rows::cancel(buffer, m),
        Message::Delete(m) => put(buffer, 11, &m.reference.to_be_bytes()),
        Message::Replace(m) => rows::change(buffer, m.original, m.new_reference, m.shares, m.price),
        Message::Correct(m) => rows::change(
            buffer,
            m.match_number,
            m.new_match_number,
            m.shares,
            m.price,
        ),
        Message::Break(m) => put(buffer, 11, &m.match_number.to_be_bytes()),
        Message::Quote(m) => rows::quote(buffer, m),
        Message::Sale(m) | Message::SaleCancel(m) => rows::sale(buffer, m),
    }
}

// A message that has passed, into the first bytes of a buffer that is long enough.
fn put_message(buffer: &mut [u8], message: &Message)
    requires { ((told message.now).0.size ≤ length buffer.old) × ((11 ≤ length buffer.old) × (AllNarrow (every_field (told message.now).0) (told message.now).1)) }
    ensures { Put (told message.now) buffer.old buffer.new }
{
    put_head(buffer, message.kind().letter(), message.head());
    put_fields(buffer, message);
}

/// Writes a message of a feed into the first bytes of a buffer, and answers how many they are; the others stay as they were.
/// A message that no bytes decode to is refused, and a refusal leaves the buffer as it was.
/// What is written decodes to the same fields.
pub fn write(feed: Feed, message: &Message, buffer: &mut [u8]) -> Result<usize, WireFault>
    ensures answer { result ≡ writing feed (told message.now) (length buffer.old) }
    ensures bytes { buffer.new ≡ buffer_after result (told message.now) buffer.old }
    ensures again { IfOk result (λ n. decoding feed (take n buffer.new) ≡ Ok (as_written (told message.now))) }
{
    let kind = message.kind();
    if !kind.is_on(feed) {
        return Err(BytesFault::NotInFeed.into());
    }
    message.judge()?;
    let size = kind.size();
    if buffer.len() < size {
        return Err(BytesFault::ShortBuffer(buffer.len()).into());
    }
    put_message(buffer, message);
    Ok(size)
}
