//! The questions that a message's fields must pass, in rising offset.

ghost use Rattle.std.specs.Prelude.{◌≡◌, ◌*◌, ◌≤◌, is_some, nat_le};
ghost use Rattle.wire.specs.Judging.{judged, verdict, after, row_judged};
ghost use Rattle.wire.specs.Table.{symbol, figure, shares as shares_field, price as price_field, row_R, row_A, row_Q, row_T};
ghost use Rattle.wire.specs.Told.{told, of_symbol, of_directory, of_add, of_quote, of_sale};
ghost use Rattle.wire.specs.declared.fault.FieldsFault.TheVariants.{UnlistedCode as unlisted, OverLimit as over_limit};

use crate::fault::FieldsFault;
use crate::fields::{MOST_PRICE, MOST_SHARES, ask, listed, product_within, within};
use crate::message::{
    Add, Cancel, Correct, Directory, Execute, Message, Quote, Replace, Sale, Symbol,
};
use codes::{
    authenticity_number, category_number, event_number, restriction_number, side_number,
    state_number,
};

impl Directory<'_> {
    // The fields after its head, once the locate has passed, as in all that follow.
    fn judge_fields(&self) -> Result<(), FieldsFault>
        requires { 1 ≤ self.now.head.locate }
        ensures { result ≡ row_judged row_R (of_directory self.now) }
    {
        self.stock.judge(11)?;
        listed(category_number(self.category), 19)?;
        listed(authenticity_number(self.authenticity), 24)
    }
}

impl Add<'_> {
    fn judge_fields(&self) -> Result<(), FieldsFault>
        requires { 1 ≤ self.now.head.locate }
        ensures { result ≡ row_judged row_A (of_add self.now) }
    {
        listed(side_number(self.side), 19)?;
        within(self.shares as u64, 1..=MOST_SHARES, 20)?;
        self.stock.judge(24)?;
        within(self.price, 1..=MOST_PRICE, 32)?;
        product_within(self.price, self.shares, 32)
    }
}

impl Quote<'_> {
    fn judge_fields(&self) -> Result<(), FieldsFault>
        requires { 1 ≤ self.now.head.locate }
        ensures { result ≡ row_judged row_Q (of_quote self.now) }
    {
        self.stock.judge(11)?;
        within(self.bid, 0..=MOST_PRICE, 19)?;
        within(self.offer, 0..=MOST_PRICE, 31)
    }
}

impl Sale<'_> {
    fn judge_fields(&self) -> Result<(), FieldsFault>
        requires { 1 ≤ self.now.head.locate }
        ensures { result ≡ row_judged row_T (of_sale self.now) }
    {
        self.stock.judge(11)?;
        within(self.price, 1..=MOST_PRICE, 27)?;
        within(self.size as u64, 1..=MOST_SHARES, 35)?;
        product_within(self.price, self.size, 27)
    }
}

// A stock and one code, whose number this is.
fn judge_stock_and_code(stock: Symbol, number: Option<u8>) -> Result<(), FieldsFault>
    ensures { result ≡ after (judged (symbol 11) (of_symbol stock.entry)) (verdict (is_some number) (unlisted 19)) }
{
    stock.judge(11)?;
    listed(number, 19)
}

// The shares and the price of an order or a trade that gives way to another.
fn judge_change(shares: u32, price: u64) -> Result<(), FieldsFault>
    ensures { result ≡ after (judged (shares_field 27) (figure shares)) (after (judged (price_field 31) (figure price)) (verdict (nat_le (price * shares) 100000000000000) (over_limit 31))) }
{
    within(shares as u64, 1..=MOST_SHARES, 27)?;
    within(price, 1..=MOST_PRICE, 31)?;
    product_within(price, shares, 31)
}

impl Message<'_> {
    /// Questions 4 to 8: the fields in rising offset, then the limit of price times shares.
    pub fn judge(&self) -> Result<(), FieldsFault>
        ensures { result ≡ row_judged (told self.now).0 (told self.now).1 }
    {
        let is_event = matches!(self, Message::Event(_));
        ask(
            (self.head().locate == 0) == is_event,
            FieldsFault::WrongLocate,
        )?;
        match self {
            Message::Event(m) => listed(event_number(m.event), 11),
            Message::Directory(m) => m.judge_fields(),
            Message::TradingAction(m) => judge_stock_and_code(m.stock, state_number(m.state)),
            Message::Restriction(m) => judge_stock_and_code(
                m.stock,
                restriction_number(m.restriction),
            ),
            Message::Add(m) => m.judge_fields(),
            Message::Execute(Execute { shares, .. }) | Message::Cancel(Cancel { shares, .. }) =>
                within(*shares as u64, 1..=MOST_SHARES, 19),
            Message::Delete(_) | Message::Break(_) => Ok(()),
            Message::Replace(Replace { shares, price, .. })
            | Message::Correct(Correct { shares, price, .. }) => judge_change(*shares, *price),
            Message::Quote(m) => m.judge_fields(),
            Message::Sale(m) | Message::SaleCancel(m) => m.judge_fields(),
        }
    }
}
