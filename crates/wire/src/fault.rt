//! Why bytes or fields are refused.

ghost use Rattle.std.specs.Prelude.{◌≡◌};
ghost use Rattle.wire.specs.Fault.{told};
ghost use Rattle.wire.specs.declared.fault.WireFault.TheVariants.{Bytes as bytes_refused, Fields as fields_refused};

/// Where a question is asked.
#[derive(Clone, Copy, PartialEq, Eq, Debug)]
pub enum Layer {
    Bytes,
    Fields,
    Book,
    Capture,
}

/// A question on the bytes as a whole that was answered by no; where its place varies, with that place.
#[derive(Clone, Copy, PartialEq, Eq, Debug)]
pub enum BytesFault {
    Empty,
    NotInFeed,
    WrongLength(usize),
    ShortBuffer(usize),
}

/// A question on a field that was answered by no; where its place varies, with the field's offset.
#[derive(Clone, Copy, PartialEq, Eq, Debug)]
pub enum FieldsFault {
    WrongLocate,
    BadSymbol(usize),
    UnlistedCode(usize),
    OutOfBounds(usize),
    OverLimit(usize),
}

/// Why a message is refused before any book sees it.
#[derive(Clone, Copy, PartialEq, Eq, Debug)]
pub enum WireFault {
    Bytes(BytesFault),
    Fields(FieldsFault),
}

impl From<BytesFault> for WireFault {
    ghost from_gives = { λ f w. w ≡ bytes_refused f };

    fn from(fault: BytesFault) -> WireFault {
        WireFault::Bytes(fault)
    }
}

impl From<FieldsFault> for WireFault {
    ghost from_gives = { λ f w. w ≡ fields_refused f };

    fn from(fault: FieldsFault) -> WireFault {
        WireFault::Fields(fault)
    }
}

// The questions have numbers for a buyer to read; the code passes on the enums.
impl WireFault {
    /// Its number, layer and place, a row for each question.
    fn told(self) -> (u8, Layer, usize)
        ensures { result ≡ told self }
    {
        match self {
            WireFault::Bytes(BytesFault::Empty) => (1, Layer::Bytes, 0),
            WireFault::Bytes(BytesFault::NotInFeed) => (2, Layer::Bytes, 0),
            WireFault::Bytes(BytesFault::WrongLength(place)) => (3, Layer::Bytes, place),
            WireFault::Bytes(BytesFault::ShortBuffer(place)) => (9, Layer::Bytes, place),
            WireFault::Fields(FieldsFault::WrongLocate) => (4, Layer::Fields, 1),
            WireFault::Fields(FieldsFault::BadSymbol(place)) => (5, Layer::Fields, place),
            WireFault::Fields(FieldsFault::UnlistedCode(place)) => (6, Layer::Fields, place),
            WireFault::Fields(FieldsFault::OutOfBounds(place)) => (7, Layer::Fields, place),
            WireFault::Fields(FieldsFault::OverLimit(place)) => (8, Layer::Fields, place),
        }
    }

    /// The question's number.
    pub fn number(self) -> u8
        ensures { result ≡ (told self).0 }
    {
        self.told().0
    }

    pub fn layer(self) -> Layer
        ensures { result ≡ (told self).1 }
    {
        self.told().1
    }

    /// The offset that the question is about.
    pub fn place(self) -> usize
        ensures { result ≡ (told self).2 }
    {
        self.told().2
    }
}
