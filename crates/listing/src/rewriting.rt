//! Writing a decoded message again, to hold it against its bytes.

ghost use Rattle.std.specs.Prelude.{◌≡◌};
ghost use Rattle.decode.specs.Decoding.{told_in};
ghost use Rattle.listing.specs.Rewriting.{gives, differs_as};
ghost use Rattle.wire.specs.Told.{told};

use encode::write;
use wire::fault::WireFault;
use wire::message::{Feed, Message};

/// The length of the longest message.
const LONGEST: usize = 43;

/// Does writing a message of a feed give these bytes?
pub fn rewritten(feed: Feed, message: &Message<'_>, bytes: &[u8]) -> bool
    ensures { result ≡ gives feed (told message.now) bytes.now }
{
    let mut buffer = [0u8; LONGEST];
    // A match: `is_ok_and` would index the buffer in a closure, which says no more.
    match write(feed, message, &mut buffer) {
        Ok(len) => &buffer[..len] == bytes,
        Err(_) => false,
    }
}

/// Does a decoded message differ when it is written again?
pub(crate) fn is_different(
    feed: Feed,
    decoded: &Result<Message<'_>, WireFault>,
    bytes: &[u8],
) -> bool
    ensures { result ≡ differs_as feed (told_in decoded.now) bytes.now }
{
    matches!(decoded, Ok(message) if !rewritten(feed, message, bytes))
}
