//! The kinds of messages: which letter names which in a feed, and how long each is.

ghost use Rattle.std.specs.Prelude.{◌≡◌, ◌<◌, ◌≤◌};
ghost use Rattle.wire.specs.Kinds.{row_of, row_in};
ghost use Rattle.wire.specs.Table.{table, find};
ghost use Rattle.wire.specs.Told.{told};

use crate::message::{Feed, Message};

/// A row of the table.
#[derive(Clone, Copy, PartialEq, Eq, Debug)]
pub enum Kind {
    Event,
    Directory,
    TradingAction,
    Restriction,
    Add,
    Execute,
    Cancel,
    Delete,
    Replace,
    Correct,
    Break,
    Quote,
    Sale,
    SaleCancel,
}

impl Kind {
    /// The kind that a letter names in a feed.
    pub fn named(feed: Feed, letter: char) -> Option<Kind>
        ensures { row_in result ≡ find table feed letter }
    {
        match (letter, feed) {
            ('S', _) => Some(Kind::Event),
            ('R', _) => Some(Kind::Directory),
            ('H', _) => Some(Kind::TradingAction),
            ('Y', _) => Some(Kind::Restriction),
            ('A', Feed::Depth) => Some(Kind::Add),
            ('E', Feed::Depth) => Some(Kind::Execute),
            ('X', Feed::Depth) => Some(Kind::Cancel),
            ('D', Feed::Depth) => Some(Kind::Delete),
            ('U', Feed::Depth) => Some(Kind::Replace),
            ('C', Feed::Depth) => Some(Kind::Correct),
            ('B', Feed::Depth) => Some(Kind::Break),
            ('Q', Feed::Bbbo) => Some(Kind::Quote),
            ('T', Feed::LastSale) => Some(Kind::Sale),
            ('X', Feed::LastSale) => Some(Kind::SaleCancel),
            _ => None,
        }
    }

    /// Its letter.
    // The way back of `named`. A search of all kinds by letter and feed there would be no plainer: each line of its match is one row.
    pub fn letter(self) -> char
        ensures value { result ≡ (row_of self).letter }
        ensures byte { result < 256 }
    {
        match self {
            Kind::Event => 'S',
            Kind::Directory => 'R',
            Kind::TradingAction => 'H',
            Kind::Restriction => 'Y',
            Kind::Add => 'A',
            Kind::Execute => 'E',
            Kind::Cancel => 'X',
            Kind::Delete => 'D',
            Kind::Replace => 'U',
            Kind::Correct => 'C',
            Kind::Break => 'B',
            Kind::Quote => 'Q',
            Kind::Sale => 'T',
            Kind::SaleCancel => 'X',
        }
    }

    /// Is its row in the feed?
    // No plainer as `Kind::named(feed, self.letter()) == Some(self)`, which goes to the letter and back for what four lines say.
    pub fn is_on(self, feed: Feed) -> bool
        ensures { result ≡ (row_of self).on feed }
    {
        match self {
            Kind::Event | Kind::Directory | Kind::TradingAction | Kind::Restriction => true,
            Kind::Quote => matches!(feed, Feed::Bbbo),
            Kind::Sale | Kind::SaleCancel => matches!(feed, Feed::LastSale),
            _ => matches!(feed, Feed::Depth),
        }
    }

    /// How long such a message is.
    pub fn size(self) -> usize
        ensures value { result ≡ (row_of self).size }
        ensures bound { 11 ≤ result }
    {
        match self {
            Kind::Event => 12,
            Kind::Directory => 25,
            Kind::TradingAction | Kind::Restriction => 20,
            Kind::Add => 40,
            Kind::Execute => 31,
            Kind::Cancel => 23,
            Kind::Delete | Kind::Break => 19,
            Kind::Replace | Kind::Correct | Kind::Sale | Kind::SaleCancel => 39,
            Kind::Quote => 43,
        }
    }
}

impl Message<'_> {
    /// Which row of the table it is.
    pub fn kind(&self) -> Kind
        ensures { row_of result ≡ (told self.now).0 }
    {
        match self {
            Message::Event(_) => Kind::Event,
            Message::Directory(_) => Kind::Directory,
            Message::TradingAction(_) => Kind::TradingAction,
            Message::Restriction(_) => Kind::Restriction,
            Message::Add(_) => Kind::Add,
            Message::Execute(_) => Kind::Execute,
            Message::Cancel(_) => Kind::Cancel,
            Message::Delete(_) => Kind::Delete,
            Message::Replace(_) => Kind::Replace,
            Message::Correct(_) => Kind::Correct,
            Message::Break(_) => Kind::Break,
            Message::Quote(_) => Kind::Quote,
            Message::Sale(_) => Kind::Sale,
            Message::SaleCancel(_) => Kind::SaleCancel,
        }
    }
}
