//! What a message does to the account of its stock.

ghost use Rattle.std.specs.Prelude.{◌≡◌};
ghost use Rattle.book.specs.Message.{heard};
ghost use Rattle.book.specs.Sums.{worth};
ghost use Rattle.wire.specs.Told.{told};
ghost use Rattle.accounts.specs.Account.{nothing, adding, removing, run, executing, back, breaking, anew, correcting, about, posted, lowered};

use crate::account::{Account, Figures, Flow};
use wire::message::Message;

impl Figures {
    /// Price times shares.
    fn worth(self) -> u64
        ensures { result ≡ worth self.price self.shares }
    {
        self.price.saturating_mul(self.shares as u64)
    }

    /// An order once it has lost shares; at none it leaves.
    pub fn lowered(self, shares: u32) -> Option<Figures>
        ensures { result ≡ lowered self shares }
    {
        let shares = self.shares.saturating_sub(shares);
        (shares > 0).then_some(Figures { shares, ..self })
    }
}

impl Flow {
    fn run(self, figure: u64) -> Flow
        ensures { result ≡ run self figure }
    {
        Flow {
            executed: self.executed.saturating_add(figure),
            ..self
        }
    }

    fn back(self, figure: u64) -> Flow
        ensures { result ≡ back self figure }
    {
        Flow {
            broken: self.broken.saturating_add(figure),
            ..self
        }
    }

    fn anew(self, old: u64, new: u64) -> Flow
        ensures { result ≡ anew self old new }
    {
        Flow {
            undone: self.undone.saturating_add(old),
            redone: self.redone.saturating_add(new),
            ..self
        }
    }
}

impl Account {
    /// An account before any message.
    pub fn nothing() -> Account
        ensures { result ≡ nothing }
    {
        Account::default()
    }

    fn adding(self, shares: u32) -> Account
        ensures { result ≡ adding self shares }
    {
        Account {
            added: self.added.saturating_add(shares as u64),
            ..self
        }
    }

    fn removing(self, shares: u32) -> Account
        ensures { result ≡ removing self shares }
    {
        Account {
            removed: self.removed.saturating_add(shares as u64),
            ..self
        }
    }

    fn executing(self, price: u64, shares: u32) -> Account
        ensures { result ≡ executing self price shares }
    {
        Account {
            volume: self.volume.run(shares as u64),
            turnover: self.turnover.run(Figures { price, shares }.worth()),
            ..self
        }
    }

    fn breaking(self, trade: Figures) -> Account
        ensures { result ≡ breaking self trade }
    {
        Account {
            volume: self.volume.back(trade.shares as u64),
            turnover: self.turnover.back(trade.worth()),
            ..self
        }
    }

    fn correcting(self, old: Figures, new: Figures) -> Account
        ensures { result ≡ correcting self old new }
    {
        Account {
            volume: self.volume.anew(old.shares as u64, new.shares as u64),
            turnover: self.turnover.anew(old.worth(), new.worth()),
            ..self
        }
    }

    /// The account after a message of its stock; `named` is the order or the trade that the message names.
    pub fn posted<'a>(self, message: &Message<'a>, named: Figures) -> Account
        ensures { result ≡ posted self (about (heard (told message.now))) named }
    {
        match message {
            Message::Add(m) => self.adding(m.shares),
            Message::Execute(m) => self.executing(named.price, m.shares),
            Message::Cancel(m) => self.removing(m.shares),
            Message::Delete(_) => self.removing(named.shares),
            Message::Replace(m) => self.removing(named.shares).adding(m.shares),
            Message::Correct(m) => self.correcting(
                named,
                Figures {
                    price: m.price,
                    shares: m.shares,
                },
            ),
            Message::Break(_) => self.breaking(named),
            Message::Event(_)
            | Message::Directory(_)
            | Message::TradingAction(_)
            | Message::Restriction(_)
            | Message::Quote(_)
            | Message::Sale(_)
            | Message::SaleCancel(_) => self,
        }
    }
}
