//! A capture whose index was judged.

ghost use Rattle.std.specs.Prelude.{◌≡◌, ◌^◌, ◌<◌, ◌≤◌, Ok, Err, IfOk, MatchOption, MatchResult};
ghost use Rattle.capture.specs.Index.{judged, message, Laid};

use crate::fault::CaptureFault;
use crate::index::judge;
use crate::messages::Messages;
use crate::parts;

/// A capture that is not refused, and how many messages it has.
#[derive(Clone, Copy)]
pub struct Capture<'a> {
    pub(crate) bytes: &'a [u8],
    // As the index tells it, so that it is read but once.
    pub(crate) count: usize,
    pub ghost judged: { judged bytes.now ≡ Ok count },
    pub ghost few: { count < 2 ^ 32 },
}

impl<'a> Capture<'a> {
    /// Judges the whole index.
    pub fn judge(bytes: &'a [u8]) -> Result<Capture<'a>, CaptureFault>
        ensures verdict { MatchResult result (λ capture. judged bytes.now ≡ Ok capture.count) (λ fault. judged bytes.now ≡ Err fault) }
        ensures bytes { IfOk result (λ capture. capture.bytes.now ≡ bytes.now) }
        ensures laid { IfOk result (λ capture. Laid bytes.now capture.count) }
    {
        let count = judge(bytes)?;
        Ok(Capture { bytes, count })
    }

    /// How many messages it has.
    pub fn count(&self) -> usize
        ensures { result ≡ self.now.count }
    {
        self.count
    }

    /// The bytes of a message, by its pair's number from 0; there is one for each pair below the count.
    pub fn message(&self, pair: usize) -> Option<&'a [u8]>
        ensures { MatchOption result (self.now.count ≤ pair) (λ bytes. (pair < self.now.count) × (bytes.now ≡ message self.now.bytes.now pair)) }
    {
        if pair < self.count {
            parts::message(self.bytes, pair)
        } else {
            None
        }
    }

    /// The messages from a pair on, one after another.
    pub fn messages_from(&self, pair: usize) -> Messages<'a>
        ensures capture { result.capture ≡ self.now }
        ensures pair { result.pair ≡ pair }
    {
        Messages {
            capture: *self,
            pair,
        }
    }
}
