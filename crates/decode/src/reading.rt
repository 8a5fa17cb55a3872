//! The values of a message, taken from the bytes after its head: what stands at offset 11 of the message is at 0 here.

ghost use Rattle.std.specs.Prelude.{◌≡◌, ◌+◌, ◌^◌, ◌<◌, ◌≤◌, length};
ghost use Rattle.wire.specs.Table.{text, row_S, row_R, row_H, row_Y, row_A, row_E, row_X, row_D, row_U, row_C, row_B, row_Q, row_T};
ghost use Rattle.wire.specs.Told.{with_head, of_symbol, of_event, of_directory, of_trading_action, of_restriction, of_add, of_execute, of_cancel, of_delete, of_replace, of_correct, of_break, of_quote, of_sale};
ghost use Rattle.decode.specs.Decoding.{part};
ghost use Rattle.decode.specs.Rest.{rest_values};

// A function for each type that is built: two of one shape differ in the type and in each field's name, so one for both would be no plainer.
// Head and rest come to each: a struct of the two would be taken apart again in each.

use wire::message::{
    Add, Break, Cancel, Correct, Delete, Directory, Event, Execute, Head, Quote, Replace,
    Restriction, Sale, Symbol, TradingAction,
};

// So many bytes from an offset on.
fn part<const N: usize>(rest: &[u8], at: usize) -> [u8; N]
    requires { at + N ≤ length rest.now }
    ensures { result ≡ part at N rest.now }
{
    rest[at..at + N].try_into().unwrap()
}

// A borrowed part of the message, with its offset in the whole.
fn stock(rest: &[u8], at: usize) -> Symbol<'_>
    requires { (at + 8 ≤ length rest.now) × (at + 11 < 2 ^ 64) }
    ensures { of_symbol result ≡ text (at + 11) (part at 8 rest.now) }
{
    Symbol {
        bytes: &rest[at..at + 8],
        place: at + 11,
    }
}

pub(crate) fn event(head: Head, rest: &[u8]) -> Event
    requires { length rest.now ≡ 1 }
    ensures { of_event result ≡ with_head head (rest_values rest.now row_S.fields) }
{
    Event {
        head,
        event: rest[0] as char,
    }
}

pub(crate) fn directory(head: Head, rest: &[u8]) -> Directory<'_>
    requires { length rest.now ≡ 14 }
    ensures { of_directory result ≡ with_head head (rest_values rest.now row_R.fields) }
{
    Directory {
        head,
        stock: stock(rest, 0),
        category: rest[8] as char,
        lot: u32::from_be_bytes(part(rest, 9)),
        authenticity: rest[13] as char,
    }
}

pub(crate) fn trading_action(head: Head, rest: &[u8]) -> TradingAction<'_>
    requires { length rest.now ≡ 9 }
    ensures { of_trading_action result ≡ with_head head (rest_values rest.now row_H.fields) }
{
    TradingAction {
        head,
        stock: stock(rest, 0),
        state: rest[8] as char,
    }
}

pub(crate) fn restriction(head: Head, rest: &[u8]) -> Restriction<'_>
    requires { length rest.now ≡ 9 }
    ensures { of_restriction result ≡ with_head head (rest_values rest.now row_Y.fields) }
{
    Restriction {
        head,
        stock: stock(rest, 0),
        restriction: rest[8] as char,
    }
}

pub(crate) fn add(head: Head, rest: &[u8]) -> Add<'_>
    requires { length rest.now ≡ 29 }
    ensures { of_add result ≡ with_head head (rest_values rest.now row_A.fields) }
{
    Add {
        head,
        reference: u64::from_be_bytes(part(rest, 0)),
        side: rest[8] as char,
        shares: u32::from_be_bytes(part(rest, 9)),
        stock: stock(rest, 13),
        price: u64::from_be_bytes(part(rest, 21)),
    }
}

pub(crate) fn execute(head: Head, rest: &[u8]) -> Execute
    requires { length rest.now ≡ 20 }
    ensures { of_execute result ≡ with_head head (rest_values rest.now row_E.fields) }
{
    Execute {
        head,
        reference: u64::from_be_bytes(part(rest, 0)),
        shares: u32::from_be_bytes(part(rest, 8)),
        match_number: u64::from_be_bytes(part(rest, 12)),
    }
}

pub(crate) fn cancel(head: Head, rest: &[u8]) -> Cancel
    requires { length rest.now ≡ 12 }
    ensures { of_cancel result ≡ with_head head (rest_values rest.now row_X.fields) }
{
    Cancel {
        head,
        reference: u64::from_be_bytes(part(rest, 0)),
        shares: u32::from_be_bytes(part(rest, 8)),
    }
}

pub(crate) fn delete(head: Head, rest: &[u8]) -> Delete
    requires { length rest.now ≡ 8 }
    ensures { of_delete result ≡ with_head head (rest_values rest.now row_D.fields) }
{
    Delete {
        head,
        reference: u64::from_be_bytes(part(rest, 0)),
    }
}

pub(crate) fn replace(head: Head, rest: &[u8]) -> Replace
    requires { length rest.now ≡ 28 }
    ensures { of_replace result ≡ with_head head (rest_values rest.now row_U.fields) }
{
    Replace {
        head,
        original: u64::from_be_bytes(part(rest, 0)),
        new_reference: u64::from_be_bytes(part(rest, 8)),
        shares: u32::from_be_bytes(part(rest, 16)),
        price: u64::from_be_bytes(part(rest, 20)),
    }
}

pub(crate) fn correct(head: Head, rest: &[u8]) -> Correct
    requires { length rest.now ≡ 28 }
    ensures { of_correct result ≡ with_head head (rest_values rest.now row_C.fields) }
{
    Correct {
        head,
        match_number: u64::from_be_bytes(part(rest, 0)),
        new_match_number: u64::from_be_bytes(part(rest, 8)),
        shares: u32::from_be_bytes(part(rest, 16)),
        price: u64::from_be_bytes(part(rest, 20)),
    }
}

pub(crate) fn broken(head: Head, rest: &[u8]) -> Break
    requires { length rest.now ≡ 8 }
    ensures { of_break result ≡ with_head head (rest_values rest.now row_B.fields) }
{
    Break {
        head,
        match_number: u64::from_be_bytes(part(rest, 0)),
    }
}

pub(crate) fn quote(head: Head, rest: &[u8]) -> Quote<'_>
    requires { length rest.now ≡ 32 }
    ensures { of_quote result ≡ with_head head (rest_values rest.now row_Q.fields) }
{
    Quote {
        head,
        stock: stock(rest, 0),
        bid: u64::from_be_bytes(part(rest, 8)),
        bid_size: u32::from_be_bytes(part(rest, 16)),
        offer: u64::from_be_bytes(part(rest, 20)),
        offer_size: u32::from_be_bytes(part(rest, 28)),
    }
}

pub(crate) fn sale(head: Head, rest: &[u8]) -> Sale<'_>
    requires { length rest.now ≡ 28 }
    ensures { of_sale result ≡ with_head head (rest_values rest.now row_T.fields) }
{
    Sale {
        head,
        stock: stock(rest, 0),
        match_number: u64::from_be_bytes(part(rest, 8)),
        price: u64::from_be_bytes(part(rest, 16)),
        size: u32::from_be_bytes(part(rest, 24)),
    }
}
