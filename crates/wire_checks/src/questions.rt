//! Decoding, one case for each question and kind of field. The bytes were laid out from the formats by hand, not by this code.

use decode::decode;
use wire::message::Feed;

/// Is this refused with that number and place?
fn refused(feed: Feed, bytes: &[u8], number: u8, place: usize) -> bool {
    decode(feed, bytes).is_err_and(|fault| fault.number() == number && fault.place() == place)
}

fn passes(feed: Feed, bytes: &[u8]) -> bool {
    decode(feed, bytes).is_ok()
}

/// The first byte names a row of the feed.
#[test]
fn a_first_byte_names_a_row_of_the_feed(rt: HostRuntime) {
    assert!(rt; refused(Feed::Depth, b"", 1, 0));
    assert!(rt;
        refused(
            Feed::Bbbo,
            b"A\0\x01\0\0\0\0\0\0\0\x05\0\0\0\0\0\0\0\x07B\0\0\0dABCD    \0\0\0\0\0\x01\x86\xa0",
            2,
            0,
        )
    );
    assert!(rt;
        refused(
            Feed::LastSale,
            b"E\0\x01\0\0\0\0\0\0\0\x06\0\0\0\0\0\0\0\x07\0\0\0(\0\0\0\0\0\0\0\x09",
            2,
            0,
        )
    );
    assert!(rt;
        refused(
            Feed::Depth,
            b"Q\0\x01\0\0\0\0\0\0\0\x0cABCD    \0\0\0\0\0\0\0\0\0\0\0\0\0\0\0\0\0\0\0\0\0\0\0\0",
            2,
            0,
        )
    );
    assert!(rt;
        refused(
            Feed::LastSale,
            b"Q\0\x01\0\0\0\0\0\0\0\x0cABCD    \0\0\0\0\0\0\0\0\0\0\0\0\0\0\0\0\0\0\0\0\0\0\0\0",
            2,
            0,
        )
    );
    assert!(rt;
        refused(
            Feed::Depth,
            b"T\0\x01\0\0\0\0\0\0\0\x0dABCD    \0\0\0\0\0\0\0\x09\0\0\0\0\0\x01\x86\xa0\0\0\0(",
            2,
            0,
        )
    );
    assert!(rt;
        refused(
            Feed::Bbbo,
            b"X\0\x01\0\0\0\0\0\0\0\x0dABCD    \0\0\0\0\0\0\0\x09\0\0\0\0\0\x01\x86\xa0\0\0\0(",
            2,
            0,
        )
    );
}

/// The first byte names a row of the feed.
#[test]
fn a_first_byte_names_a_row_of_the_feed_too(rt: HostRuntime) {
    assert!(rt;
        refused(
            Feed::Depth,
            b"a\0\x01\0\0\0\0\0\0\0\x05\0\0\0\0\0\0\0\x07B\0\0\0dABCD    \0\0\0\0\0\x01\x86\xa0",
            2,
            0,
        )
    );
    assert!(rt; refused(Feed::Depth, b"\xff", 2, 0));
}

/// The length is the row's; the place is the smaller of both lengths.
#[test]
fn the_length_is_the_row_s(rt: HostRuntime) {
    assert!(rt; refused(Feed::Depth, b"S\0\0\0\0\0\0\0\0\0\x01", 3, 11));
    assert!(rt; refused(Feed::Depth, b"S\0\0\0\0\0\0\0\0\0\x01OO", 3, 12));
    assert!(rt; refused(Feed::Depth, b"A", 3, 1));
    assert!(rt;
        refused(
            Feed::Bbbo,
            b"Q\0\x01\0\0\0\0\0\0\0\x0cABCD    \0\0\0\0\0\0\0\0\0\0\0\0\0\0\0\0\0\0\0\0\0\0\0\0 ",
            3,
            43,
        )
    );
    assert!(rt;
        refused(
            Feed::LastSale,
            b"T\0\x01\0\0\0\0\0\0\0\x0dABCD    \0\0\0\0\0\0\0\x09\0\0\0\0\0\x01\x86\xa0\0\0\0",
            3,
            38,
        )
    );
    assert!(rt;
        refused(
            Feed::Depth,
            b"X\0\x01\0\0\0\0\0\0\0\x0dABCD    \0\0\0\0\0\0\0\x09\0\0\0\0\0\x01\x86\xa0\0\0\0(",
            3,
            23,
        )
    );
    assert!(rt;
        refused(
            Feed::LastSale,
            b"X\0\x01\0\0\0\0\0\0\0\x07\0\0\0\0\0\0\0\x07\0\0\0\x0a",
            3,
            23,
        )
    );
}

/// The length is the row's; the place is the smaller of both lengths.
#[test]
fn the_length_is_the_row_s_too(rt: HostRuntime) {
    assert!(rt;
        refused(
            Feed::Depth,
            b"R\0\x01\0\0\0\0\0\0\0\x02ABCD    N\0\0\0dPPP",
            3,
            25,
        )
    );
}

/// An event has locate 0, every other message one above it.
#[test]
fn only_an_event_has_locate_0(rt: HostRuntime) {
    assert!(rt; refused(Feed::Depth, b"S\0\x01\0\0\0\0\0\0\0\x01O", 4, 1));
    assert!(rt;
        refused(
            Feed::Depth,
            b"R\0\0\0\0\0\0\0\0\0\x02ABCD    N\0\0\0dP",
            4,
            1,
        )
    );
    assert!(rt; refused(Feed::Depth, b"H\0\0\0\0\0\0\0\0\0\x03ABCD    T", 4, 1));
    assert!(rt; refused(Feed::Depth, b"Y\0\0\0\0\0\0\0\0\0\x04ABCD    0", 4, 1));
    assert!(rt;
        refused(
            Feed::Depth,
            b"A\0\0\0\0\0\0\0\0\0\x05\0\0\0\0\0\0\0\x07B\0\0\0dABCD    \0\0\0\0\0\x01\x86\xa0",
            4,
            1,
        )
    );
    assert!(rt;
        refused(
            Feed::Depth,
            b"E\0\0\0\0\0\0\0\0\0\x06\0\0\0\0\0\0\0\x07\0\0\0(\0\0\0\0\0\0\0\x09",
            4,
            1,
        )
    );
    assert!(rt;
        refused(
            Feed::Depth,
            b"X\0\0\0\0\0\0\0\0\0\x07\0\0\0\0\0\0\0\x07\0\0\0\x0a",
            4,
            1,
        )
    );
}

/// An event has locate 0, every other message one above it.
#[test]
fn only_an_event_has_locate_0_too(rt: HostRuntime) {
    assert!(rt;
        refused(
            Feed::Depth,
            b"D\0\0\0\0\0\0\0\0\0\x08\0\0\0\0\0\0\0\x07",
            4,
            1,
        )
    );
    assert!(rt;
        refused(
            Feed::Depth,
            b"U\0\0\0\0\0\0\0\0\0\x09\0\0\0\0\0\0\0\x07\0\0\0\0\0\0\0\x08\0\0\02\0\0\0\0\0\x01\x87\x04",
            4,
            1,
        )
    );
    assert!(rt;
        refused(
            Feed::Depth,
            b"C\0\0\0\0\0\0\0\0\0\x0a\0\0\0\0\0\0\0\x09\0\0\0\0\0\0\0\x0a\0\0\0\x1e\0\0\0\0\0\x01\x86\xa0",
            4,
            1,
        )
    );
    assert!(rt;
        refused(
            Feed::Depth,
            b"B\0\0\0\0\0\0\0\0\0\x0b\0\0\0\0\0\0\0\x0a",
            4,
            1,
        )
    );
    assert!(rt;
        refused(
            Feed::Bbbo,
            b"Q\0\0\0\0\0\0\0\0\0\x0cABCD    \0\0\0\0\0\0\0\0\0\0\0\0\0\0\0\0\0\0\0\0\0\0\0\0",
            4,
            1,
        )
    );
    assert!(rt;
        refused(
            Feed::LastSale,
            b"T\0\0\0\0\0\0\0\0\0\x0dABCD    \0\0\0\0\0\0\0\x09\0\0\0\0\0\x01\x86\xa0\0\0\0(",
            4,
            1,
        )
    );
    assert!(rt;
        refused(
            Feed::LastSale,
            b"X\0\0\0\0\0\0\0\0\0\x0dABCD    \0\0\0\0\0\0\0\x09\0\0\0\0\0\x01\x86\xa0\0\0\0(",
            4,
            1,
        )
    );
}

/// Every byte of a symbol is judged.
#[test]
fn every_byte_of_a_symbol_is_judged(rt: HostRuntime) {
    assert!(rt;
        refused(
            Feed::Depth,
            b"R\0\x01\0\0\0\0\0\0\0\x02 ABC    N\0\0\0dP",
            5,
            11,
        )
    );
    assert!(rt;
        refused(
            Feed::Depth,
            b"R\0\x01\0\0\0\0\0\0\0\x02AB CD   N\0\0\0dP",
            5,
            11,
        )
    );
    assert!(rt;
        refused(
            Feed::Depth,
            b"R\0\x01\0\0\0\0\0\0\0\x02       AN\0\0\0dP",
            5,
            11,
        )
    );
    assert!(rt;
        refused(
            Feed::Depth,
            b"R\0\x01\0\0\0\0\0\0\0\x02        N\0\0\0dP",
            5,
            11,
        )
    );
    assert!(rt; refused(Feed::Depth, b"H\0\x01\0\0\0\0\0\0\0\x03ABCDEFG\x7fT", 5, 11));
    assert!(rt; refused(Feed::Depth, b"Y\0\x01\0\0\0\0\0\0\0\x04A\0      0", 5, 11));
    assert!(rt;
        refused(
            Feed::Depth,
            b"A\0\x01\0\0\0\0\0\0\0\x05\0\0\0\0\0\0\0\x07B\0\0\0d\x1fBC     \0\0\0\0\0\x01\x86\xa0",
            5,
            24,
        )
    );
}

/// Every byte of a symbol is judged.
#[test]
fn every_byte_of_a_symbol_is_judged_too(rt: HostRuntime) {
    assert!(rt;
        refused(
            Feed::Bbbo,
            b"Q\0\x01\0\0\0\0\0\0\0\x0cA B     \0\0\0\0\0\0\0\0\0\0\0\0\0\0\0\0\0\0\0\0\0\0\0\0",
            5,
            11,
        )
    );
    assert!(rt;
        refused(
            Feed::LastSale,
            b"T\0\x01\0\0\0\0\0\0\0\x0d\x80       \0\0\0\0\0\0\0\x09\0\0\0\0\0\x01\x86\xa0\0\0\0(",
            5,
            11,
        )
    );
    assert!(rt;
        refused(
            Feed::LastSale,
            b"X\0\x01\0\0\0\0\0\0\0\x0dABCD   \x09\0\0\0\0\0\0\0\x09\0\0\0\0\0\x01\x86\xa0\0\0\0(",
            5,
            11,
        )
    );
}

/// Codes are of the list of their field.
#[test]
fn codes_are_listed(rt: HostRuntime) {
    assert!(rt; refused(Feed::Depth, b"S\0\0\0\0\0\0\0\0\0\x01o", 6, 11));
    assert!(rt; refused(Feed::Depth, b"S\0\0\0\0\0\0\0\0\0\x01X", 6, 11));
    assert!(rt;
        refused(
            Feed::Depth,
            b"R\0\x01\0\0\0\0\0\0\0\x02ABCD    B\0\0\0dP",
            6,
            19,
        )
    );
    assert!(rt;
        refused(
            Feed::Depth,
            b"R\0\x01\0\0\0\0\0\0\0\x02ABCD    N\0\0\0dQ",
            6,
            24,
        )
    );
    assert!(rt; refused(Feed::Depth, b"H\0\x01\0\0\0\0\0\0\0\x03ABCD    P", 6, 19));
    assert!(rt; refused(Feed::Depth, b"Y\0\x01\0\0\0\0\0\0\0\x04ABCD    3", 6, 19));
    assert!(rt;
        refused(
            Feed::Depth,
            b"A\0\x01\0\0\0\0\0\0\0\x05\0\0\0\0\0\0\0\x07X\0\0\0dABCD    \0\0\0\0\0\x01\x86\xa0",
            6,
            19,
        )
    );
}

/// Shares, sizes and prices are within their bounds.
#[test]
fn numbers_are_within_bounds(rt: HostRuntime) {
    assert!(rt;
        refused(
            Feed::Depth,
            b"A\0\x01\0\0\0\0\0\0\0\x05\0\0\0\0\0\0\0\x07B\0\0\0\0ABCD    \0\0\0\0\0\x01\x86\xa0",
            7,
            20,
        )
    );
    assert!(rt;
        refused(
            Feed::Depth,
            b"A\0\x01\0\0\0\0\0\0\0\x05\0\0\0\0\0\0\0\x07B\0\x0fBAABCD    \0\0\0\0\0\0\0\x01",
            7,
            20,
        )
    );
    assert!(rt;
        refused(
            Feed::Depth,
            b"A\0\x01\0\0\0\0\0\0\0\x05\0\0\0\0\0\0\0\x07B\0\0\0dABCD    \0\0\0\0\0\0\0\0",
            7,
            32,
        )
    );
    assert!(rt;
        refused(
            Feed::Depth,
            b"A\0\x01\0\0\0\0\0\0\0\x05\0\0\0\0\0\0\0\x07B\0\0\0\x01ABCD    \0\0\0\0w5\x94\x01",
            7,
            32,
        )
    );
    assert!(rt;
        refused(
            Feed::Depth,
            b"E\0\x01\0\0\0\0\0\0\0\x06\0\0\0\0\0\0\0\x07\0\0\0\0\0\0\0\0\0\0\0\x09",
            7,
            19,
        )
    );
    assert!(rt;
        refused(
            Feed::Depth,
            b"E\0\x01\0\0\0\0\0\0\0\x06\0\0\0\0\0\0\0\x07\0\x0fBA\0\0\0\0\0\0\0\x09",
            7,
            19,
        )
    );
    assert!(rt;
        refused(
            Feed::Depth,
            b"X\0\x01\0\0\0\0\0\0\0\x07\0\0\0\0\0\0\0\x07\0\0\0\0",
            7,
            19,
        )
    );
}

/// Shares, sizes and prices are within their bounds.
#[test]
fn numbers_are_within_bounds_too(rt: HostRuntime) {
    assert!(rt;
        refused(
            Feed::Depth,
            b"X\0\x01\0\0\0\0\0\0\0\x07\0\0\0\0\0\0\0\x07\xff\xff\xff\xff",
            7,
            19,
        )
    );
    assert!(rt;
        refused(
            Feed::Depth,
            b"U\0\x01\0\0\0\0\0\0\0\x09\0\0\0\0\0\0\0\x07\0\0\0\0\0\0\0\x08\0\0\0\0\0\0\0\0\0\x01\x87\x04",
            7,
            27,
        )
    );
    assert!(rt;
        refused(
            Feed::Depth,
            b"U\0\x01\0\0\0\0\0\0\0\x09\0\0\0\0\0\0\0\x07\0\0\0\0\0\0\0\x08\0\0\02\0\0\0\0\0\0\0\0",
            7,
            31,
        )
    );
    assert!(rt;
        refused(
            Feed::Depth,
            b"C\0\x01\0\0\0\0\0\0\0\x0a\0\0\0\0\0\0\0\x09\0\0\0\0\0\0\0\x0a\0\x0fBA\0\0\0\0\0\x01\x86\xa0",
            7,
            27,
        )
    );
    assert!(rt;
        refused(
            Feed::Depth,
            b"C\0\x01\0\0\0\0\0\0\0\x0a\0\0\0\0\0\0\0\x09\0\0\0\0\0\0\0\x0a\0\0\0\x1e\x80\0\0\0\0\0\0\0",
            7,
            31,
        )
    );
    assert!(rt;
        refused(
            Feed::Bbbo,
            b"Q\0\x01\0\0\0\0\0\0\0\x0cABCD    \0\0\0\0w5\x94\x01\0\0\0\0\0\0\0\0\0\0\0\0\0\0\0\0",
            7,
            19,
        )
    );
    assert!(rt;
        refused(
            Feed::Bbbo,
            b"Q\0\x01\0\0\0\0\0\0\0\x0cABCD    \0\0\0\0\0\0\0\0\0\0\0\0\0\0\0\0w5\x94\x01\0\0\0\0",
            7,
            31,
        )
    );
}

/// Shares, sizes and prices are within their bounds.
#[test]
fn numbers_are_within_bounds_as_well(rt: HostRuntime) {
    assert!(rt;
        refused(
            Feed::LastSale,
            b"T\0\x01\0\0\0\0\0\0\0\x0dABCD    \0\0\0\0\0\0\0\x09\0\0\0\0\0\0\0\0\0\0\0(",
            7,
            27,
        )
    );
    assert!(rt;
        refused(
            Feed::LastSale,
            b"T\0\x01\0\0\0\0\0\0\0\x0dABCD    \0\0\0\0\0\0\0\x09\0\0\0\0\0\x01\x86\xa0\0\0\0\0",
            7,
            35,
        )
    );
    assert!(rt;
        refused(
            Feed::LastSale,
            b"X\0\x01\0\0\0\0\0\0\0\x0dABCD    \0\0\0\0\0\0\0\x09\0\0\0\0w5\x94\x01\0\0\0(",
            7,
            27,
        )
    );
    assert!(rt;
        refused(
            Feed::LastSale,
            b"X\0\x01\0\0\0\0\0\0\0\x0dABCD    \0\0\0\0\0\0\0\x09\0\0\0\0\0\x01\x86\xa0\0\x0fBA",
            7,
            35,
        )
    );
}

/// Price times shares is limited after all fields.
#[test]
fn price_times_shares_is_limited(rt: HostRuntime) {
    assert!(rt;
        refused(
            Feed::Depth,
            b"A\0\x01\0\0\0\0\0\0\0\x05\0\0\0\0\0\0\0\x07B\0\0\xc3QABCD    \0\0\0\0w5\x94\0",
            8,
            32,
        )
    );
    assert!(rt;
        refused(
            Feed::Depth,
            b"U\0\x01\0\0\0\0\0\0\0\x09\0\0\0\0\0\0\0\x07\0\0\0\0\0\0\0\x08\0\x0fB@\0\0\0\0\x05\xf5\xe1\x01",
            8,
            31,
        )
    );
    assert!(rt;
        refused(
            Feed::Depth,
            b"C\0\x01\0\0\0\0\0\0\0\x0a\0\0\0\0\0\0\0\x09\0\0\0\0\0\0\0\x0a\0\x0fB@\0\0\0\0w5\x94\0",
            8,
            31,
        )
    );
    assert!(rt;
        refused(
            Feed::LastSale,
            b"T\0\x01\0\0\0\0\0\0\0\x0dABCD    \0\0\0\0\0\0\0\x09\0\0\0\0w5\x94\0\0\0\xc3Q",
            8,
            27,
        )
    );
    assert!(rt;
        refused(
            Feed::LastSale,
            b"X\0\x01\0\0\0\0\0\0\0\x0dABCD    \0\0\0\0\0\0\0\x09\0\0\0\0;\x9a\xca\0\0\x01\x86\xa1",
            8,
            27,
        )
    );
}

/// Fields are judged in rising offset, and the first that fails is told.
#[test]
fn fields_are_judged_in_rising_offset(rt: HostRuntime) {
    assert!(rt;
        refused(
            Feed::Depth,
            b"R\0\0\0\0\0\0\0\0\0\x02        B\0\0\0dQ",
            4,
            1,
        )
    );
    assert!(rt;
        refused(
            Feed::Depth,
            b"R\0\x01\0\0\0\0\0\0\0\x02        B\0\0\0dQ",
            5,
            11,
        )
    );
    assert!(rt;
        refused(
            Feed::Depth,
            b"R\0\x01\0\0\0\0\0\0\0\x02ABCD    B\0\0\0dQ",
            6,
            19,
        )
    );
    assert!(rt;
        refused(
            Feed::Depth,
            b"A\0\x01\0\0\0\0\0\0\0\x05\0\0\0\0\0\0\0\x07X\0\0\0\0        \0\0\0\0\0\0\0\0",
            6,
            19,
        )
    );
    assert!(rt;
        refused(
            Feed::Depth,
            b"A\0\x01\0\0\0\0\0\0\0\x05\0\0\0\0\0\0\0\x07B\0\0\0\0        \0\0\0\0\0\0\0\0",
            7,
            20,
        )
    );
    assert!(rt;
        refused(
            Feed::Depth,
            b"A\0\x01\0\0\0\0\0\0\0\x05\0\0\0\0\0\0\0\x07B\0\0\0d        \0\0\0\0\0\0\0\0",
            5,
            24,
        )
    );
    assert!(rt;
        refused(
            Feed::Bbbo,
            b"Q\0\x01\0\0\0\0\0\0\0\x0c        \0\0\0\0w5\x94\x01\0\0\0\0\0\0\0\0w5\x94\x01\0\0\0\0",
            5,
            11,
        )
    );
}

/// Fields are judged in rising offset, and the first that fails is told.
#[test]
fn fields_are_judged_in_rising_offset_too(rt: HostRuntime) {
    assert!(rt;
        refused(
            Feed::Bbbo,
            b"Q\0\x01\0\0\0\0\0\0\0\x0cABCD    \0\0\0\0w5\x94\x01\0\0\0\0\0\0\0\0w5\x94\x01\0\0\0\0",
            7,
            19,
        )
    );
    assert!(rt;
        refused(
            Feed::LastSale,
            b"T\0\x01\0\0\0\0\0\0\0\x0dABCD    \0\0\0\0\0\0\0\x09\0\0\0\0\0\0\0\0\0\0\0\0",
            7,
            27,
        )
    );
}

#[test]
fn every_event_and_some_categories_pass(rt: HostRuntime) {
    assert!(rt; passes(Feed::Depth, b"S\0\0\0\0\0\0\0\0\0\x01O"));
    assert!(rt; passes(Feed::Depth, b"S\0\0\0\0\0\0\0\0\0\x01S"));
    assert!(rt; passes(Feed::Depth, b"S\0\0\0\0\0\0\0\0\0\x01Q"));
    assert!(rt; passes(Feed::Depth, b"S\0\0\0\0\0\0\0\0\0\x01M"));
    assert!(rt; passes(Feed::Depth, b"S\0\0\0\0\0\0\0\0\0\x01E"));
    assert!(rt; passes(Feed::Depth, b"S\0\0\0\0\0\0\0\0\0\x01C"));
    assert!(rt; passes(Feed::Depth, b"R\0\x01\0\0\0\0\0\0\0\x02ABCD    A\0\0\0dP"));
    assert!(rt; passes(Feed::Depth, b"R\0\x01\0\0\0\0\0\0\0\x02ABCD    N\0\0\0dP"));
    assert!(rt; passes(Feed::Depth, b"R\0\x01\0\0\0\0\0\0\0\x02ABCD    P\0\0\0dP"));
}

#[test]
fn categories_authenticities_states_and_restrictions_pass(rt: HostRuntime) {
    assert!(rt; passes(Feed::Depth, b"R\0\x01\0\0\0\0\0\0\0\x02ABCD    Q\0\0\0dP"));
    assert!(rt; passes(Feed::Depth, b"R\0\x01\0\0\0\0\0\0\0\x02ABCD    V\0\0\0dP"));
    assert!(rt; passes(Feed::Depth, b"R\0\x01\0\0\0\0\0\0\0\x02ABCD    Z\0\0\0dP"));
    assert!(rt; passes(Feed::Depth, b"R\0\x01\0\0\0\0\0\0\0\x02ABCD     \0\0\0dP"));
    assert!(rt; passes(Feed::Bbbo, b"R\0\x01\0\0\0\0\0\0\0\x02ABCD    N\0\0\0dT"));
    assert!(rt;
        passes(
            Feed::LastSale,
            b"R\0\x01\0\0\0\0\0\0\0\x02!~!~!~!~N\0\0\0dP",
        )
    );
    assert!(rt; passes(Feed::Depth, b"H\0\x01\0\0\0\0\0\0\0\x03ABCD    H"));
    assert!(rt; passes(Feed::LastSale, b"H\0\x01\0\0\0\0\0\0\0\x03ABCD    T"));
    assert!(rt; passes(Feed::Bbbo, b"Y\0\x01\0\0\0\0\0\0\0\x04ABCD    1"));
}

#[test]
fn bounds_pass(rt: HostRuntime) {
    assert!(rt; passes(Feed::LastSale, b"Y\0\x01\0\0\0\0\0\0\0\x04ABCD    2"));
    assert!(rt; passes(Feed::Depth, b"Y\0\x01\0\0\0\0\0\0\0\x04ABCD    0"));
    assert!(rt;
        passes(
            Feed::Depth,
            b"A\0\x01\0\0\0\0\0\0\0\x05\0\0\0\0\0\0\0\x07S\0\0\0\x01ABCD    \0\0\0\0\0\0\0\x01",
        )
    );
    assert!(rt;
        passes(
            Feed::Depth,
            b"A\0\x01\0\0\0\0\0\0\0\x05\0\0\0\0\0\0\0\x07B\0\x0fB@ABCD    \0\0\0\0\x05\xf5\xe1\0",
        )
    );
    assert!(rt;
        passes(
            Feed::Depth,
            b"A\0\x01\0\0\0\0\0\0\0\x05\0\0\0\0\0\0\0\x07B\0\0\xc3PABCD    \0\0\0\0w5\x94\0",
        )
    );
    assert!(rt;
        passes(
            Feed::Depth,
            b"E\0\x01\0\0\0\0\0\0\0\x06\0\0\0\0\0\0\0\x07\0\x0fB@\0\0\0\0\0\0\0\x09",
        )
    );
    assert!(rt;
        passes(
            Feed::Depth,
            b"E\0\x01\0\0\0\0\0\0\0\x06\0\0\0\0\0\0\0\x07\0\0\0\x01\0\0\0\0\0\0\0\x09",
        )
    );
    assert!(rt;
        passes(
            Feed::Depth,
            b"X\0\x01\0\0\0\0\0\0\0\x07\0\0\0\0\0\0\0\x07\0\0\0\x0a",
        )
    );
    assert!(rt;
        passes(
            Feed::Depth,
            b"D\xff\xff\0\0\0\0\0\0\0\x08\0\0\0\0\0\0\0\x07",
        )
    );
}

#[test]
fn every_other_row_passes(rt: HostRuntime) {
    assert!(rt;
        passes(
            Feed::Depth,
            b"U\0\x01\0\0\0\0\0\0\0\x09\0\0\0\0\0\0\0\x07\0\0\0\0\0\0\0\x08\0\0\02\0\0\0\0\0\x01\x87\x04",
        )
    );
    assert!(rt;
        passes(
            Feed::Depth,
            b"C\0\x01\0\0\0\0\0\0\0\x0a\0\0\0\0\0\0\0\x09\0\0\0\0\0\0\0\x0a\0\0\0\x1e\0\0\0\0\0\x01\x86\xa0",
        )
    );
    assert!(rt; passes(Feed::Depth, b"B\0\x01\0\0\0\0\0\0\0\x0b\0\0\0\0\0\0\0\x0a"));
    assert!(rt;
        passes(
            Feed::Bbbo,
            b"Q\0\x01\0\0\0\0\0\0\0\x0cABCD    \0\0\0\0\0\0\0\0\0\0\0\0\0\0\0\0\0\0\0\0\0\0\0\0",
        )
    );
    assert!(rt;
        passes(
            Feed::Bbbo,
            b"Q\0\x01\0\0\0\0\0\0\0\x0cABCD    \0\0\0\0w5\x94\0\0\0\0\0\0\0\0\0w5\x94\0\0\0\0\0",
        )
    );
    assert!(rt;
        passes(
            Feed::LastSale,
            b"T\0\x01\0\0\0\0\0\0\0\x0dABCD    \0\0\0\0\0\0\0\x09\0\0\0\0\0\x01\x86\xa0\0\0\0(",
        )
    );
    assert!(rt;
        passes(
            Feed::LastSale,
            b"T\0\x01\0\0\0\0\0\0\0\x0dABCD    \0\0\0\0\0\0\0\x09\0\0\0\0w5\x94\0\0\0\xc3P",
        )
    );
    assert!(rt;
        passes(
            Feed::LastSale,
            b"X\0\x01\0\0\0\0\0\0\0\x0dABCD    \0\0\0\0\0\0\0\x09\0\0\0\0\0\x01\x86\xa0\0\0\0(",
        )
    );
}
