//! The fields of each kind of message after the time stamp, put into a buffer as its row has them.

ghost use Rattle.std.specs.Prelude.{◌≡◌, ◌<◌, ◌≤◌, [], ◌∷◌, drop, length};
ghost use Rattle.wire.specs.Table.{figure, row_R, row_H, row_A, row_E, row_X, row_U, row_Q, row_T};
ghost use Rattle.wire.specs.Told.{of_symbol, of_directory, of_add, of_execute, of_cancel, of_quote, of_sale};
ghost use Rattle.encode.specs.Laying.{placed, AllNarrow, Widths};

use crate::put::put;
use wire::message::{Add, Cancel, Directory, Execute, Quote, Sale, Symbol};

// Stock, category, lot, authenticity.
pub(crate) fn directory(buffer: &mut [u8], m: &Directory)
    requires { (25 ≤ length buffer.old) × (AllNarrow row_R.fields (drop 2 (of_directory m.now))) }
    ensures bytes { buffer.new ≡ placed row_R.fields (drop 2 (of_directory m.now)) buffer.old }
    ensures widths { Widths row_R.fields (drop 2 (of_directory m.now)) }
{
    put(buffer, 11, m.stock.bytes);
    put(buffer, 19, &[m.category as u8]);
    put(buffer, 20, &m.lot.to_be_bytes());
    put(buffer, 24, &[m.authenticity as u8]);
}

// Reference, side, shares, stock, price.
pub(crate) fn add(buffer: &mut [u8], m: &Add)
    requires { (40 ≤ length buffer.old) × (AllNarrow row_A.fields (drop 2 (of_add m.now))) }
    ensures bytes { buffer.new ≡ placed row_A.fields (drop 2 (of_add m.now)) buffer.old }
    ensures widths { Widths row_A.fields (drop 2 (of_add m.now)) }
{
    put(buffer, 11, &m.reference.to_be_bytes());
    put(buffer, 19, &[m.side as u8]);
    put(buffer, 20, &m.shares.to_be_bytes());
    put(buffer, 24, m.stock.bytes);
    put(buffer, 32, &m.price.to_be_bytes());
}

// Reference, shares, match.
pub(crate) fn execute(buffer: &mut [u8], m: &Execute)
    requires { 31 ≤ length buffer.old }
    ensures bytes { buffer.new ≡ placed row_E.fields (drop 2 (of_execute m.now)) buffer.old }
    ensures widths { Widths row_E.fields (drop 2 (of_execute m.now)) }
{
    put(buffer, 11, &m.reference.to_be_bytes());
    put(buffer, 19, &m.shares.to_be_bytes());
    put(buffer, 23, &m.match_number.to_be_bytes());
}

// Reference, shares.
pub(crate) fn cancel(buffer: &mut [u8], m: &Cancel)
    requires { 23 ≤ length buffer.old }
    ensures bytes { buffer.new ≡ placed row_X.fields (drop 2 (of_cancel m.now)) buffer.old }
    ensures widths { Widths row_X.fields (drop 2 (of_cancel m.now)) }
{
    put(buffer, 11, &m.reference.to_be_bytes());
    put(buffer, 19, &m.shares.to_be_bytes());
}

// An order or a trade that gives way to another: the old one, the new one, shares, price.
pub(crate) fn change(buffer: &mut [u8], old: u64, new: u64, shares: u32, price: u64)
    requires { 39 ≤ length buffer.old }
    ensures bytes { buffer.new ≡ placed row_U.fields (figure old ∷ figure new ∷ figure shares ∷ figure price ∷ []) buffer.old }
    ensures widths { Widths row_U.fields (figure old ∷ figure new ∷ figure shares ∷ figure price ∷ []) }
{
    put(buffer, 11, &old.to_be_bytes());
    put(buffer, 19, &new.to_be_bytes());
    put(buffer, 27, &shares.to_be_bytes());
    put(buffer, 31, &price.to_be_bytes());
}

// A stock and one letter: its state, or its restriction.
pub(crate) fn stock_and_code(buffer: &mut [u8], stock: Symbol, code: char)
    requires { (20 ≤ length buffer.old) × ((length stock.bytes.now ≡ 8) × (code < 256)) }
    ensures { buffer.new ≡ placed row_H.fields (of_symbol stock.entry ∷ figure code ∷ []) buffer.old }
{
    put(buffer, 11, stock.bytes);
    put(buffer, 19, &[code as u8]);
}

// Stock, bid, bid size, offer, offer size.
pub(crate) fn quote(buffer: &mut [u8], m: &Quote)
    requires { (43 ≤ length buffer.old) × (AllNarrow row_Q.fields (drop 2 (of_quote m.now))) }
    ensures bytes { buffer.new ≡ placed row_Q.fields (drop 2 (of_quote m.now)) buffer.old }
    ensures widths { Widths row_Q.fields (drop 2 (of_quote m.now)) }
{
    put(buffer, 11, m.stock.bytes);
    put(buffer, 19, &m.bid.to_be_bytes());
    put(buffer, 27, &m.bid_size.to_be_bytes());
    put(buffer, 31, &m.offer.to_be_bytes());
    put(buffer, 39, &m.offer_size.to_be_bytes());
}

// Stock, match, price, size.
pub(crate) fn sale(buffer: &mut [u8], m: &Sale)
    requires { (39 ≤ length buffer.old) × (AllNarrow row_T.fields (drop 2 (of_sale m.now))) }
    ensures bytes { buffer.new ≡ placed row_T.fields (drop 2 (of_sale m.now)) buffer.old }
    ensures widths { Widths row_T.fields (drop 2 (of_sale m.now)) }
{
    put(buffer, 11, m.stock.bytes);
    put(buffer, 19, &m.match_number.to_be_bytes());
    put(buffer, 27, &m.price.to_be_bytes());
    put(buffer, 35, &m.size.to_be_bytes());
}
