//! The messages of the three feeds, taken apart.

ghost use Rattle.std.specs.Prelude.{◌≡◌};
ghost use Rattle.wire.specs.Told.{head_of};

/// One of the three feeds.
#[derive(Clone, Copy, PartialEq, Eq, Debug)]
pub enum Feed {
    Depth,
    Bbbo,
    LastSale,
}

/// A stock's symbol as it stands in the input, filled with spaces to eight bytes, and its offset in the message.
#[derive(Clone, Copy, PartialEq, Eq, Debug)]
pub struct Symbol<'a> {
    pub bytes: &'a [u8],
    pub place: usize,
}

/// What every message begins with, after its type.
#[derive(Clone, Copy, PartialEq, Eq, Debug)]
pub struct Head {
    pub locate: u16,
    pub stamp: u64,
}

/// S: an event of the day.
#[derive(Clone, Copy, PartialEq, Eq, Debug)]
pub struct Event {
    pub head: Head,
    pub event: char,
}

/// R: a stock's entry in the day's directory.
#[derive(Clone, Copy, PartialEq, Eq, Debug)]
pub struct Directory<'a> {
    pub head: Head,
    pub stock: Symbol<'a>,
    pub category: char,
    pub lot: u32,
    pub authenticity: char,
}

/// H: a stock is halted or released for trading.
#[derive(Clone, Copy, PartialEq, Eq, Debug)]
pub struct TradingAction<'a> {
    pub head: Head,
    pub stock: Symbol<'a>,
    pub state: char,
}

/// Y: a stock's short sale restriction.
#[derive(Clone, Copy, PartialEq, Eq, Debug)]
pub struct Restriction<'a> {
    pub head: Head,
    pub stock: Symbol<'a>,
    pub restriction: char,
}

/// A: an order opens.
#[derive(Clone, Copy, PartialEq, Eq, Debug)]
pub struct Add<'a> {
    pub head: Head,
    pub reference: u64,
    pub side: char,
    pub shares: u32,
    pub stock: Symbol<'a>,
    pub price: u64,
}

/// E: shares of an order are executed.
#[derive(Clone, Copy, PartialEq, Eq, Debug)]
pub struct Execute {
    pub head: Head,
    pub reference: u64,
    pub shares: u32,
    pub match_number: u64,
}

/// X of Depth: shares of an order are cancelled.
#[derive(Clone, Copy, PartialEq, Eq, Debug)]
pub struct Cancel {
    pub head: Head,
    pub reference: u64,
    pub shares: u32,
}

/// D: an order leaves.
#[derive(Clone, Copy, PartialEq, Eq, Debug)]
pub struct Delete {
    pub head: Head,
    pub reference: u64,
}

/// U: an order gives way to a new one.
#[derive(Clone, Copy, PartialEq, Eq, Debug)]
pub struct Replace {
    pub head: Head,
    pub original: u64,
    pub new_reference: u64,
    pub shares: u32,
    pub price: u64,
}

/// C: a trade gives way to a corrected one.
#[derive(Clone, Copy, PartialEq, Eq, Debug)]
pub struct Correct {
    pub head: Head,
    pub match_number: u64,
    pub new_match_number: u64,
    pub shares: u32,
    pub price: u64,
}

/// B: a trade is broken.
#[derive(Clone, Copy, PartialEq, Eq, Debug)]
pub struct Break {
    pub head: Head,
    pub match_number: u64,
}

/// Q: a stock's best bid and offer.
#[derive(Clone, Copy, PartialEq, Eq, Debug)]
pub struct Quote<'a> {
    pub head: Head,
    pub stock: Symbol<'a>,
    pub bid: u64,
    pub bid_size: u32,
    pub offer: u64,
    pub offer_size: u32,
}

/// T and X of Last Sale: a sale, or the cancellation of one.
#[derive(Clone, Copy, PartialEq, Eq, Debug)]
pub struct Sale<'a> {
    pub head: Head,
    pub stock: Symbol<'a>,
    pub match_number: u64,
    pub price: u64,
    pub size: u32,
}

/// A message of one of the feeds. Letters are as they stand in it.
#[derive(Clone, Copy, PartialEq, Eq, Debug)]
pub enum Message<'a> {
    Event(Event),
    Directory(Directory<'a>),
    TradingAction(TradingAction<'a>),
    Restriction(Restriction<'a>),
    Add(Add<'a>),
    Execute(Execute),
    Cancel(Cancel),
    Delete(Delete),
    Replace(Replace),
    Correct(Correct),
    Break(Break),
    Quote(Quote<'a>),
    Sale(Sale<'a>),
    SaleCancel(Sale<'a>),
}

impl Message<'_> {
    /// What it begins with, after its type.
    pub fn head(&self) -> Head
        ensures { result ≡ head_of self.now }
    {
        match self {
            Message::Event(Event { head, .. })
            | Message::Directory(Directory { head, .. })
            | Message::TradingAction(TradingAction { head, .. })
            | Message::Restriction(Restriction { head, .. })
            | Message::Add(Add { head, .. })
            | Message::Execute(Execute { head, .. })
            | Message::Cancel(Cancel { head, .. })
            | Message::Delete(Delete { head, .. })
            | Message::Replace(Replace { head, .. })
            | Message::Correct(Correct { head, .. })
            | Message::Break(Break { head, .. })
            | Message::Quote(Quote { head, .. })
            | Message::Sale(Sale { head, .. })
            | Message::SaleCancel(Sale { head, .. }) => *head,
        }
    }
}
