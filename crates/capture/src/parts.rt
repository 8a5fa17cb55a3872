//! The messages that an index lays out.

ghost use Rattle.std.specs.Prelude.{◌≡◌};
ghost use Rattle.std.specs.Option.{option_map};
ghost use Rattle.capture.specs.Index.{found};

use crate::index::span;

/// The bytes of a message, by its pair's number from 0; absent if its entry or the message itself would end past the bytes.
/// A judged index has every message below its count.
pub fn message(bytes: &[u8], pair: usize) -> Option<&[u8]>
    ensures { option_map (λ x. x.now) result ≡ found bytes.now pair }
{
    let (entries, _) = bytes.get(4..)?.as_chunks();
    let (start, end) = span(entries.get(pair)?);
    bytes.get(start..end)
}
