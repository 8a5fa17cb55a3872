//! Why a capture is refused.

ghost use Rattle.std.specs.Prelude.{◌≡◌};
ghost use Rattle.capture.specs.Fault.{told, told_line, entry as entry_of};

use text::fault_line::FaultLine;

/// A question on a capture's index that was answered by no, with the pair that it is about.
#[derive(Clone, Copy, PartialEq, Eq)]
pub enum CaptureFault {
    /// The count or the index ends past the bytes.
    Cut,
    /// The message starts before the end of the one before, or of the index.
    Overlaps(usize),
    /// The message ends past the bytes.
    Overruns(usize),
    /// Playing would start behind the last message.
    StartsPast(usize),
}

// The questions have numbers for a buyer to read; the code passes on the enum.
impl CaptureFault {
    /// Its number, its place, which is that of the pair's entry in the index or 0, and its pair.
    fn told(self) -> (u8, u64, usize)
        ensures { result ≡ told self }
    {
        match self {
            CaptureFault::Cut => (24, 0, 0),
            CaptureFault::Overlaps(pair) => (25, entry(pair), pair),
            CaptureFault::Overruns(pair) => (26, entry(pair), pair),
            CaptureFault::StartsPast(pair) => (27, 0, pair),
        }
    }

    /// The question's number.
    pub fn number(self) -> u8
        ensures { result ≡ (told self).0 }
    {
        self.told().0
    }

    /// Where the pair's entry stands in the index, or 0.
    pub fn place(self) -> u64
        ensures { result ≡ (told self).1 }
    {
        self.told().1
    }

    pub fn pair(self) -> usize
        ensures { result ≡ (told self).2 }
    {
        self.told().2
    }
}

impl From<CaptureFault> for FaultLine {
    ghost from_gives = { λ f line. line ≡ told_line f };

    fn from(fault: CaptureFault) -> FaultLine {
        let (number, place, pair) = fault.told();
        FaultLine {
            number,
            place,
            pair: pair as u64,
        }
    }
}

/// Where a pair's entry stands in the index; an index has fewer than 2^32 of them.
fn entry(pair: usize) -> u64
    ensures { result ≡ entry_of pair }
{
    (pair as u64).saturating_mul(6).saturating_add(4)
}
