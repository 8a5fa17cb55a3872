//! Listing a capture: its index is judged, and then its lines are written page by page, and at last a summary.

ghost use Rattle.std.specs.Prelude.{◌≡◌, ◌+◌, ◌-◌, ◌≤◌, length};
ghost use Rattle.capture.specs.Fault.{told as index_told};
ghost use Rattle.listing.specs.Paging.{total, refusals, differences, page_lines, page_text};
ghost use Rattle.lines.specs.Line.{summary};
ghost use Rattle.lines.specs.Writing.{Lined};
ghost use Rattle.text.specs.FaultLine.{fault_line};
ghost use Rattle.text.specs.Placed.{Placed, written};

use crate::listing::Listing;
use crate::page::put_page;
use capture::fault::CaptureFault;
use capture::judge;
use lines::summary::put_summary;
use text::TooShort;
use text::fault_line::FaultLine;
use wire::message::Feed;

impl<'a> Listing<'a> {
    /// A listing of a capture from its first pair on.
    pub fn over(feed: Feed, capture: &'a [u8]) -> Listing<'a>
        ensures feed { result.feed ≡ feed }
        ensures capture { result.capture.now ≡ capture.now }
        ensures next { result.next ≡ 0 }
    {
        Listing {
            feed,
            capture,
            count: judge(capture).unwrap_or(0),
            next: 0,
            refused: 0,
            differ: 0,
        }
    }

    /// Writes the next lines to the front of the buffer, as long as there is room for another, and answers how many bytes.
    /// A buffer of 256 bytes has room for one.
    pub fn fill(&mut self, buf: &mut [u8]) -> usize
        ensures feed { self.new.feed ≡ self.old.feed }
        ensures capture { self.new.capture.now ≡ self.old.capture.now }
        ensures next { self.new.next ≡ self.old.next + page_lines self.old.feed self.old.capture.now self.old.next (length buf.old) }
        ensures bytes { result ≡ length (page_text self.old.feed self.old.capture.now self.old.next (length buf.old)) }
        ensures bound { result ≤ length buf.old }
        ensures after { buf.new ≡ written buf.old 0 (page_text self.old.feed self.old.capture.now self.old.next (length buf.old)) }
    {
        let page = put_page(self.feed, self.capture, self.count, self.next, buf);
        self.next += page.lines;
        self.refused += page.refused;
        self.differ += page.differ;
        page.bytes
    }

    /// How many messages have yet to be listed.
    pub fn left(&self) -> usize
        ensures { result ≡ total self.now.capture.now - self.now.next }
    {
        self.count - self.next
    }

    /// Writes "N messages, M refused, K rewritten differ" of what has been listed to the front of the buffer, and answers how many bytes.
    /// Refused if the buffer has fewer than 256. K is always 0: what is decoded is what those bytes write.
    pub fn put_summary(&self, buf: &mut [u8]) -> Result<usize, TooShort>
        ensures lined { Lined buf.old 0 (summary self.now.next (refusals self.now.feed self.now.capture.now self.now.next) (differences self.now.feed self.now.capture.now self.now.next)) buf.new result }
        ensures agree { differences self.now.feed self.now.capture.now self.now.next ≡ 0 }
    {
        put_summary(buf, self.next, self.refused, self.differ)
    }
}

/// Writes the line of a refused index to the front of the buffer, and answers how many bytes.
pub fn put_index_fault(fault: CaptureFault, buf: &mut [u8]) -> Result<usize, TooShort>
    ensures { Placed buf.old 0 (fault_line (index_told fault).0 (index_told fault).1 (index_told fault).2) buf.new result }
{
    FaultLine::from(fault).put(buf)
}
