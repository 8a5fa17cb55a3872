//! The judge of an index: a count (4 bytes), then for each message an offset from the start (4) and a length (2).

ghost use Rattle.std.specs.Prelude.{◌≡◌, ℕ, ◌+◌, ◌≤◌, length, Ok};
ghost use Rattle.capture.specs.Index.{two, four, judged, Laid};

use crate::fault::CaptureFault;

/// Judges the whole index, pair by pair, and answers how many messages it has.
pub fn judge(bytes: &[u8]) -> Result<usize, CaptureFault>
    ensures verdict { result ≡ judged bytes.now }
    ensures laid { (n : ℕ) → result ≡ Ok n → Laid bytes.now n }
{
    let head = bytes.first_chunk().ok_or(CaptureFault::Cut)?;
    let count = u32::from_be_bytes(*head) as usize;
    let mut end = 4 + 6 * count;
    let index = bytes.get(4..end).ok_or(CaptureFault::Cut)?;
    let (entries, _) = index.as_chunks();
    for (pair, entry) in entries.iter().enumerate() {
        let (start, stop) = span(entry);
        if start < end {
            return Err(CaptureFault::Overlaps(pair));
        }
        if bytes.len() < stop {
            return Err(CaptureFault::Overruns(pair));
        }
        end = stop;
    }
    Ok(count)
}

/// Where the message of an entry starts, and where it ends.
pub(crate) fn span(entry: &[u8; 6]) -> (usize, usize)
    ensures start { result.0 ≡ four entry.now 0 }
    ensures end { result.1 ≡ four entry.now 0 + two entry.now 4 }
{
    let [a, b, c, d, high, low] = *entry;
    let start = u32::from_be_bytes([a, b, c, d]) as usize;
    (start, start + u16::from_be_bytes([high, low]) as usize)
}
