//! A message's type and fields, by a pen that has room for them.

ghost use Rattle.std.specs.Prelude.{◌≡◌, ◌+◌, ◌≤◌, [], ◌∷◌, ◌++◌, length, codes, decimal};
ghost use Rattle.wire.specs.Table.{row_R, row_A, row_E, row_X, row_Q, row_T};
ghost use Rattle.wire.specs.Told.{told, of_directory, of_add, of_execute, of_cancel, of_quote, of_sale};
ghost use Rattle.lines.specs.Line.{code_text, symbol_text, message_text, rest_text};
ghost use Rattle.lines.specs.Writing.{Writes};

use crate::pen::Pen;
use wire::message::{Add, Cancel, Directory, Execute, Message, Quote, Sale, Symbol};

/// A stock's entry in the directory.
fn directory(pen: &mut Pen<'_>, m: &Directory<'_>)
    requires { pen.old.at + 70 ≤ length pen.old.buf.now }
    ensures writes { Writes pen.old (rest_text (row_R, of_directory m.now)) pen.new }
    ensures bound { pen.new.at ≤ pen.old.at + 70 }
{
    pen.symbol(b" stock=", m.stock.bytes);
    pen.code(b" category=", m.category);
    pen.number(b" lot=", m.lot as u64);
    pen.code(b" authenticity=", m.authenticity);
}

/// A stock, and a code of it.
fn stock_and_code(pen: &mut Pen<'_>, stock: &Symbol<'_>, label: &[u8], code: char)
    requires { pen.old.at + length label.now + 18 ≤ length pen.old.buf.now }
    ensures writes { Writes pen.old ((codes " stock=" ++ symbol_text stock.now.bytes.now) ∷ (label.now ++ code_text code) ∷ []) pen.new }
    ensures bound { pen.new.at ≤ pen.old.at + length label.now + 18 }
{
    pen.symbol(b" stock=", stock.bytes);
    pen.code(label, code);
}

/// An order that opens.
fn add(pen: &mut Pen<'_>, m: &Add<'_>)
    requires { pen.old.at + 110 ≤ length pen.old.buf.now }
    ensures writes { Writes pen.old (rest_text (row_A, of_add m.now)) pen.new }
    ensures bound { pen.new.at ≤ pen.old.at + 110 }
{
    pen.number(b" reference=", m.reference);
    pen.code(b" side=", m.side);
    pen.number(b" shares=", m.shares as u64);
    pen.symbol(b" stock=", m.stock.bytes);
    pen.number(b" price=", m.price);
}

/// An execution.
fn execute(pen: &mut Pen<'_>, m: &Execute)
    requires { pen.old.at + 86 ≤ length pen.old.buf.now }
    ensures writes { Writes pen.old (rest_text (row_E, of_execute m.now)) pen.new }
    ensures bound { pen.new.at ≤ pen.old.at + 86 }
{
    pen.number(b" reference=", m.reference);
    pen.number(b" shares=", m.shares as u64);
    pen.number(b" match=", m.match_number);
}

/// A cancellation of shares.
fn cancel(pen: &mut Pen<'_>, m: &Cancel)
    requires { pen.old.at + 59 ≤ length pen.old.buf.now }
    ensures writes { Writes pen.old (rest_text (row_X, of_cancel m.now)) pen.new }
    ensures bound { pen.new.at ≤ pen.old.at + 59 }
{
    pen.number(b" reference=", m.reference);
    pen.number(b" shares=", m.shares as u64);
}

/// An order or a trade that gives way to another.
fn change(pen: &mut Pen<'_>, label: &[u8], old: u64, new: u64, shares: u32, price: u64)
    requires { pen.old.at + length label.now + 100 ≤ length pen.old.buf.now }
    ensures writes { Writes pen.old ((label.now ++ decimal old) ∷ (codes " new=" ++ decimal new) ∷ (codes " shares=" ++ decimal shares) ∷ (codes " price=" ++ decimal price) ∷ []) pen.new }
    ensures bound { pen.new.at ≤ pen.old.at + length label.now + 100 }
{
    pen.number(label, old);
    pen.number(b" new=", new);
    pen.number(b" shares=", shares as u64);
    pen.number(b" price=", price);
}

/// A best bid and offer.
fn quote(pen: &mut Pen<'_>, m: &Quote<'_>)
    requires { pen.old.at + 129 ≤ length pen.old.buf.now }
    ensures writes { Writes pen.old (rest_text (row_Q, of_quote m.now)) pen.new }
    ensures bound { pen.new.at ≤ pen.old.at + 129 }
{
    pen.symbol(b" stock=", m.stock.bytes);
    pen.number(b" bid=", m.bid);
    pen.number(b" bid_size=", m.bid_size as u64);
    pen.number(b" offer=", m.offer);
    pen.number(b" offer_size=", m.offer_size as u64);
}

/// A sale, or its cancellation.
fn sale(pen: &mut Pen<'_>, m: &Sale<'_>)
    requires { pen.old.at + 95 ≤ length pen.old.buf.now }
    ensures writes { Writes pen.old (rest_text (row_T, of_sale m.now)) pen.new }
    ensures bound { pen.new.at ≤ pen.old.at + 95 }
{
    pen.symbol(b" stock=", m.stock.bytes);
    pen.number(b" match=", m.match_number);
    pen.number(b" price=", m.price);
    pen.number(b" size=", m.size as u64);
}

/// The fields after the time stamp, kind by kind.
fn fields(pen: &mut Pen<'_>, message: &Message<'_>)
    requires { pen.old.at + 143 ≤ length pen.old.buf.now }
    ensures writes { Writes pen.old (rest_text (told message.now)) pen.new }
    ensures bound { pen.new.at ≤ pen.old.at + 143 }
{
    match message {
        Message::Event(m) => pen.code(b" event=", m.event),
        Message::Directory(m) => directory(pen, m),
        Message::TradingAction(m) => stock_and_code(pen, &m.stock, b" state=", m.state),
        Message::Restriction(m) => stock_and_code(pen, &m.stock, b" restriction=", m.restriction),
        Message::Add(m) => add(pen, m),
        Message::Execute(m) => execute(pen, m),
        Message::Cancel(m) => cancel(pen, m),
        Message::Delete(m) => pen.number(b" reference=", m.reference),
        Message::Replace(m) => change(
            pen,
            b" reference=",
            m.original,
            m.new_reference,
            m.shares,
            m.price,
        ),
        Message::Correct(m) => change(
            pen,
            b" match=",
            m.match_number,
            m.new_match_number,
            m.shares,
            m.price,
        ),
        Message::Break(m) => pen.number(b" match=", m.match_number),
        Message::Quote(m) => quote(pen, m),
        Message::Sale(m) | Message::SaleCancel(m) => sale(pen, m),
    }
}

/// A space and the letter, the locate and the time stamp, and the other fields.
pub(crate) fn message(pen: &mut Pen<'_>, message: &Message<'_>)
    requires { pen.old.at + 200 ≤ length pen.old.buf.now }
    ensures writes { Writes pen.old (message_text (told message.now)) pen.new }
    ensures bound { pen.new.at ≤ pen.old.at + 200 }
{
    let head = message.head();
    pen.plain(&[b' ', message.kind().letter() as u8]);
    pen.number(b" locate=", head.locate as u64);
    pen.number(b" stamp=", head.stamp);
    fields(pen, message);
}
