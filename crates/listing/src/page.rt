//! As many lines of a judged capture as a buffer has room for.

ghost use Rattle.std.specs.Prelude.{◌≡◌, ◌+◌, ◌≤◌, length};
ghost use Rattle.capture.specs.Index.{messages};
ghost use Rattle.listing.specs.Paging.{total, how_many, refused_in, page_lines, page_text};
ghost use Rattle.listing.specs.Rewriting.{differs};
ghost use Rattle.text.specs.Placed.{written};

use crate::rewriting::is_different;
use capture::message;
use decode::decode;
use lines::line::put_line;
use wire::message::Feed;

/// What was written: so many lines, so many of them of messages that are refused, or differ when written again; so many bytes.
#[derive(Clone, Copy)]
pub(crate) struct Page {
    pub(crate) lines: usize,
    pub(crate) refused: usize,
    pub(crate) differ: usize,
    pub(crate) bytes: usize,
}

/// Writes the lines from the pair `start` on to the front of the buffer, as long as there is room for another.
pub(crate) fn put_page(
    feed: Feed,
    capture: &[u8],
    count: usize,
    start: usize,
    buf: &mut [u8],
) -> Page
    requires { (count ≡ total capture.now) × (start ≤ count) }
    ensures lines { result.lines ≡ page_lines feed capture.now start (length buf.old) }
    ensures within { start + result.lines ≤ count }
    ensures refused { result.refused ≡ how_many (refused_in feed) (messages capture.now start result.lines) }
    ensures differ { result.differ ≡ how_many (differs feed) (messages capture.now start result.lines) }
    ensures agree { result.differ ≡ 0 }
    ensures bytes { result.bytes ≡ length (page_text feed capture.now start (length buf.old)) }
    ensures bound { result.bytes ≤ length buf.old }
    ensures after { buf.new ≡ written buf.old 0 (page_text feed capture.now start (length buf.old)) }
{
    let mut page = Page {
        lines: 0,
        refused: 0,
        differ: 0,
        bytes: 0,
    };
    for pair in start..count {
        let Some(bytes) = message(capture, pair) else {
            unreachable!()
        };
        let decoded = decode(feed, bytes);
        let Ok(end) = put_line(buf, page.bytes, pair, &decoded) else {
            break;
        };
        page.lines += 1;
        page.refused += usize::from(decoded.is_err());
        page.differ += usize::from(is_different(feed, &decoded, bytes));
        page.bytes = end;
    }
    page
}
