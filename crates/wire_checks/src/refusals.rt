//! What writing refuses: messages that no bytes decode to, and buffers that are too short.

use encode::write;
use wire::message::{Add, Event, Feed, Head, Message, Quote, Sale, Symbol};

/// The number and the place of the refusal of a message into this much room, if the buffer is left as it was.
fn refusal(feed: Feed, message: &Message, room: usize) -> Option<(u8, usize)> {
    let mut whole = [0xEE; 48];
    let fault = write(feed, message, whole.get_mut(..room)?).err()?;
    (whole == [0xEE; 48]).then_some((fault.number(), fault.place()))
}

fn add(locate: u16, side: char, shares: u32, stock: &[u8], price: u64) -> Message<'_> {
    Message::Add(Add {
        head: Head { locate, stamp: 5 },
        reference: 7,
        side,
        shares,
        stock: Symbol {
            bytes: stock,
            place: 24,
        },
        price,
    })
}

fn event(locate: u16, event: char) -> Message<'static> {
    Message::Event(Event {
        head: Head { locate, stamp: 1 },
        event,
    })
}

fn sale(size: u32, price: u64) -> Sale<'static> {
    Sale {
        head: Head {
            locate: 3,
            stamp: 5,
        },
        stock: Symbol {
            bytes: b"MNO     ",
            place: 11,
        },
        match_number: 9,
        price,
        size,
    }
}

#[test]
fn a_row_of_another_feed(rt: HostRuntime) {
    let add = add(1, 'B', 100, b"ABCD    ", 100_000);
    assert!(rt; refusal(Feed::Bbbo, &add, 48) == Some((2, 0)));
    assert!(rt; refusal(Feed::LastSale, &add, 48) == Some((2, 0)));
    assert!(rt; refusal(Feed::Depth, &Message::Sale(sale(1, 1)), 48) == Some((2, 0)));
    assert!(rt; refusal(Feed::Bbbo, &Message::SaleCancel(sale(1, 1)), 48) == Some((2, 0)));
}

#[test]
fn fields_that_no_bytes_have(rt: HostRuntime) {
    assert!(rt; refusal(Feed::Depth, &event(1, 'O'), 48) == Some((4, 1)));
    assert!(rt; refusal(Feed::Depth, &event(0, 'P'), 48) == Some((6, 11)));
    assert!(rt; refusal(Feed::Depth, &add(0, 'B', 100, b"ABCD    ", 1), 48) == Some((4, 1)));
    assert!(rt; refusal(Feed::Depth, &add(1, 'B', 100, b"ABCD   ", 1), 48) == Some((5, 24)));
    assert!(rt; refusal(Feed::Depth, &add(1, 'B', 100, b"ABCD     ", 1), 48) == Some((5, 24)));
    assert!(rt; refusal(Feed::Depth, &add(1, '\u{142}', 100, b"ABCD    ", 1), 48) == Some((6, 19)));
    assert!(rt; refusal(Feed::Depth, &add(1, 'B', 0, b"ABCD    ", 1), 48) == Some((7, 20)));
}

#[test]
fn bounds_and_the_limit(rt: HostRuntime) {
    assert!(rt; refusal(Feed::Depth, &add(1, 'B', 1_000_001, b"ABCD    ", 1), 48) == Some((7, 20)));
    assert!(rt;
        refusal(Feed::Depth, &add(1, 'B', 1, b"ABCD    ", 2_000_000_001), 48) == Some((7, 32))
    );
    assert!(rt;
        refusal(
            Feed::Depth,
            &add(1, 'B', 50_001, b"ABCD    ", 2_000_000_000),
            48,
        ) == Some((8, 32))
    );
    assert!(rt; refusal(Feed::LastSale, &Message::Sale(sale(0, 1)), 48) == Some((7, 35)));
    assert!(rt;
        refusal(
            Feed::LastSale,
            &Message::SaleCancel(sale(50_001, 2_000_000_000)),
            48,
        ) == Some((8, 27))
    );
}

#[test]
fn a_quote_s_bid(rt: HostRuntime) {
    let quote = Message::Quote(Quote {
        head: Head {
            locate: 2,
            stamp: 5,
        },
        stock: Symbol {
            bytes: b"XY      ",
            place: 11,
        },
        bid: 2_000_000_001,
        bid_size: 0,
        offer: 0,
        offer_size: 0,
    });
    assert!(rt; refusal(Feed::Bbbo, &quote, 48) == Some((7, 19)));
}

#[test]
fn a_buffer_that_is_too_short_after_the_fields(rt: HostRuntime) {
    let add = add(1, 'B', 100, b"ABCD    ", 100_000);
    assert!(rt; refusal(Feed::Depth, &add, 39) == Some((9, 39)));
    assert!(rt; refusal(Feed::Depth, &add, 0) == Some((9, 0)));
    assert!(rt; refusal(Feed::Depth, &event(0, 'P'), 0) == Some((6, 11)));
    assert!(rt; refusal(Feed::Depth, &event(0, 'O'), 11) == Some((9, 11)));
}
