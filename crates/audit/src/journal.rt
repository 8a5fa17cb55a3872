//! The audit's own books: open orders, trades and accounts, from the accepted messages alone.

use accounts::account::{Account, Figures};
use std::alloc::{AllocError, Global};
use std::collections::BTreeMap;
use wire::message::{Break, Cancel, Correct, Delete, Execute, Message, Replace};

/// Open orders under their references, trades under their match numbers, accounts under their locates.
#[derive(Drop)]
pub(crate) struct Journal {
    orders: BTreeMap<u64, Figures>,
    trades: BTreeMap<u64, Figures>,
    pub(crate) accounts: BTreeMap<u16, Account>,
}

impl Journal {
    pub(crate) fn new(heap: Global) -> Journal {
        Journal {
            orders: BTreeMap::new(heap),
            trades: BTreeMap::new(heap),
            accounts: BTreeMap::new(heap),
        }
    }

    /// Takes an accepted message into the books.
    pub(crate) fn take<'a>(&mut self, message: &Message<'a>) -> Result<(), AllocError> {
        let named = self.named(message);
        self.post(message, named)?;
        self.keep(message, named)
    }

    /// The order or the trade that a message names, as earlier messages made it.
    fn named<'a>(&self, message: &Message<'a>) -> Figures {
        let found = match message {
            Message::Execute(Execute { reference, .. })
            | Message::Cancel(Cancel { reference, .. })
            | Message::Delete(Delete { reference, .. })
            | Message::Replace(
                Replace {
                    original: reference,
                    ..
                },
            ) => self.orders.get(reference),
            Message::Correct(Correct { match_number, .. })
            | Message::Break(Break { match_number, .. }) => self.trades.get(match_number),
            _ => None,
        };
        found.copied().unwrap_or_default()
    }

    /// Posts a message to its stock's account. An event is of no stock.
    fn post<'a>(&mut self, message: &Message<'a>, named: Figures) -> Result<(), AllocError> {
        if let Message::Event(_) = message {
            return Ok(());
        }
        let account = self.accounts.entry(message.head().locate)?.or_default();
        *account = account.posted(message, named);
        Ok(())
    }

    /// Keeps what later messages may name.
    fn keep<'a>(&mut self, message: &Message<'a>, named: Figures) -> Result<(), AllocError> {
        match message {
            Message::Add(m) => {
                self.orders.insert(
                    m.reference,
                    Figures {
                        price: m.price,
                        shares: m.shares,
                    },
                )?;
            }
            Message::Execute(m) => {
                self.lower(m.reference, named, m.shares)?;
                self.trades.insert(
                    m.match_number,
                    Figures {
                        shares: m.shares,
                        ..named
                    },
                )?;
            }
            Message::Cancel(m) => self.lower(m.reference, named, m.shares)?,
            Message::Delete(m) => {
                let _ = self.orders.remove(&m.reference);
            }
            Message::Replace(m) => {
                let _ = self.orders.remove(&m.original);
                self.orders.insert(
                    m.new_reference,
                    Figures {
                        price: m.price,
                        shares: m.shares,
                    },
                )?;
            }
            Message::Correct(m) => {
                self.trades.insert(
                    m.new_match_number,
                    Figures {
                        price: m.price,
                        shares: m.shares,
                    },
                )?;
            }
            _ => {}
        }
        Ok(())
    }

    /// An order loses shares, and leaves at none.
    fn lower(&mut self, reference: u64, order: Figures, shares: u32) -> Result<(), AllocError> {
        match order.lowered(shares) {
            Some(left) => {
                self.orders.insert(reference, left)?;
            }
            None => {
                let _ = self.orders.remove(&reference);
            }
        }
        Ok(())
    }
}
