//! Why a book refuses a message or a reading, and why feeding and playing do.

ghost use Rattle.std.specs.Prelude.{◌≡◌};
ghost use Rattle.book.specs.Fault.{book_told, feed_told, play_told, told_line};
ghost use Rattle.book.specs.declared.fault.FeedFault.TheVariants.{Wire as wire_refused, Book as book_refused};
ghost use Rattle.book.specs.declared.fault.PlayFault.TheVariants.{Index as index_refused};

use capture::fault::CaptureFault;
use text::fault_line::FaultLine;
use wire::fault::{Layer, WireFault};

/// A question on the book that was answered by no; where its place varies, with that place.
#[derive(Clone, Copy, PartialEq, Eq)]
pub enum BookFault {
    TooMany,
    NotDue(usize),
    UnknownLocate(usize),
    OtherSymbol(usize),
    StocksFull,
    UnknownReference,
    UnknownMatch,
    OtherLocate,
    NotLive,
    ReferenceOpen(usize),
    TooManyShares,
    MatchUsed(usize),
    OrdersFull,
    MatchesFull(usize),
    ShortBuffer(usize),
}

/// Why a message is not taken: its bytes or fields, or the book.
#[derive(Clone, Copy, PartialEq, Eq)]
pub enum FeedFault {
    Wire(WireFault),
    Book(BookFault),
}

/// Why playing stopped: the index, or the message of a pair.
#[derive(Clone, Copy, PartialEq, Eq)]
pub enum PlayFault {
    Index(CaptureFault),
    Message(usize, FeedFault),
}

impl From<WireFault> for FeedFault {
    ghost from_gives = { λ f r. r ≡ wire_refused f };

    fn from(fault: WireFault) -> FeedFault {
        FeedFault::Wire(fault)
    }
}

impl From<BookFault> for FeedFault {
    ghost from_gives = { λ f r. r ≡ book_refused f };

    fn from(fault: BookFault) -> FeedFault {
        FeedFault::Book(fault)
    }
}

impl From<CaptureFault> for PlayFault {
    ghost from_gives = { λ f r. r ≡ index_refused f };

    fn from(fault: CaptureFault) -> PlayFault {
        PlayFault::Index(fault)
    }
}

impl From<PlayFault> for FaultLine {
    ghost from_gives = { λ f line. line ≡ told_line f };

    fn from(fault: PlayFault) -> FaultLine {
        let (number, _, place, pair) = fault.told();
        FaultLine {
            number,
            place,
            pair: pair as u64,
        }
    }
}

// The questions have numbers for a buyer to read; the code passes on the enums.
impl BookFault {
    /// Its number, layer and place, a row for each question.
    fn told(self) -> (u8, Layer, usize)
        ensures { result ≡ book_told self }
    {
        let (number, place) = match self {
            BookFault::TooMany => (10, 0),
            BookFault::NotDue(place) => (11, place),
            BookFault::UnknownLocate(place) => (12, place),
            BookFault::OtherSymbol(place) => (13, place),
            BookFault::StocksFull => (14, 1),
            BookFault::UnknownReference => (15, 11),
            BookFault::UnknownMatch => (16, 11),
            BookFault::OtherLocate => (17, 1),
            BookFault::NotLive => (18, 11),
            BookFault::ReferenceOpen(place) => (19, place),
            BookFault::TooManyShares => (20, 19),
            BookFault::MatchUsed(place) => (21, place),
            BookFault::OrdersFull => (22, 11),
            BookFault::MatchesFull(place) => (23, place),
            BookFault::ShortBuffer(place) => (28, place),
        };
        (number, Layer::Book, place)
    }

    /// The question's number.
    pub fn number(self) -> u8
        ensures { result ≡ (book_told self).0 }
    {
        self.told().0
    }

    /// Every one of these is the book's.
    pub fn layer(self) -> Layer
        ensures { result ≡ (book_told self).1 }
    {
        self.told().1
    }

    /// The offset that the question is about; for a text, the length of its buffer.
    pub fn place(self) -> usize
        ensures { result ≡ (book_told self).2 }
    {
        self.told().2
    }
}

impl FeedFault {
    /// Its number, layer and place: those of the inner fault.
    fn told(self) -> (u8, Layer, usize)
        ensures { result ≡ feed_told self }
    {
        match self {
            FeedFault::Wire(fault) => (fault.number(), fault.layer(), fault.place()),
            FeedFault::Book(fault) => fault.told(),
        }
    }

    /// The question's number.
    pub fn number(self) -> u8
        ensures { result ≡ (feed_told self).0 }
    {
        self.told().0
    }

    pub fn layer(self) -> Layer
        ensures { result ≡ (feed_told self).1 }
    {
        self.told().1
    }

    /// The offset that the question is about.
    pub fn place(self) -> usize
        ensures { result ≡ (feed_told self).2 }
    {
        self.told().2
    }
}

impl PlayFault {
    /// Its number, layer, place and pair: those of the index's fault, or those of the message's with its pair.
    fn told(self) -> (u8, Layer, u64, usize)
        ensures { result ≡ play_told self }
    {
        match self {
            PlayFault::Index(fault) => (
                fault.number(),
                Layer::Capture,
                fault.place(),
                fault.pair(),
            ),
            PlayFault::Message(pair, fault) => {
                let (number, layer, place) = fault.told();
                (number, layer, place as u64, pair)
            }
        }
    }

    /// The question's number.
    pub fn number(self) -> u8
        ensures { result ≡ (play_told self).0 }
    {
        self.told().0
    }

    pub fn layer(self) -> Layer
        ensures { result ≡ (play_told self).1 }
    {
        self.told().1
    }

    /// The place in the index, or in the message.
    pub fn place(self) -> u64
        ensures { result ≡ (play_told self).2 }
    {
        self.told().2
    }

    /// The pair that the fault is about.
    pub fn pair(self) -> usize
        ensures { result ≡ (play_told self).3 }
    {
        self.told().3
    }
}
