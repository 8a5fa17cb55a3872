//! Bytes put into a buffer at an offset.

ghost use Rattle.std.specs.Prelude.{◌≡◌, ◌+◌, ◌^◌, ◌<◌, ◌≤◌, [], ◌∷◌, length};
ghost use Rattle.wire.specs.Layout.{digits};
ghost use Rattle.encode.specs.Laying.{laid};

use wire::message::Head;

// Bytes, from `at` on.
pub(crate) fn put(buffer: &mut [u8], at: usize, bytes: &[u8])
    requires { at + length bytes.now ≤ length buffer.old }
    ensures { buffer.new ≡ laid at bytes.now buffer.old }
{
    buffer[at..at + bytes.len()].copy_from_slice(bytes);
}

// The first eleven bytes: the letter, the locate and the time stamp.
pub(crate) fn put_head(buffer: &mut [u8], letter: char, head: Head)
    requires { (11 ≤ length buffer.old) × (letter < 256) }
    ensures bytes { buffer.new ≡ laid 3 (digits 8 head.stamp) (laid 1 (digits 2 head.locate) (laid 0 (letter ∷ []) buffer.old)) }
    ensures width { (head.locate < 256 ^ 2) × (head.stamp < 256 ^ 8) }
{
    put(buffer, 0, &[letter as u8]);
    put(buffer, 1, &head.locate.to_be_bytes());
    put(buffer, 3, &head.stamp.to_be_bytes());
}
