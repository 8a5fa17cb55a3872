//! Writing, one message of each row. The bytes were laid out from the formats by hand, not by this code.

use encode::write;
use wire::message::{
    Add, Break, Cancel, Correct, Delete, Directory, Event, Execute, Feed, Head, Message, Quote,
    Replace, Restriction, Sale, Symbol, TradingAction,
};

/// Does the message write these bytes, and leave the others as they were?
fn writes(feed: Feed, message: &Message, bytes: &[u8]) -> bool {
    let mut buffer = [0xEE; 48];
    write(feed, message, &mut buffer) == Ok(bytes.len())
        && buffer
            .strip_prefix(bytes)
            .is_some_and(|rest| rest.iter().all(|b| *b == 0xEE))
}

fn head(locate: u16, stamp: u64) -> Head {
    Head { locate, stamp }
}

fn symbol(bytes: &[u8]) -> Symbol<'_> {
    Symbol { bytes, place: 0 }
}

#[test]
fn rows_of_every_feed(rt: HostRuntime) {
    let event = Message::Event(Event {
        head: head(0, 0x0102_0304_0506_0708),
        event: 'O',
    });
    let directory = Message::Directory(Directory {
        head: head(513, 9),
        stock: symbol(b"LONGNAME"),
        category: ' ',
        lot: 0xFFFE_FDFC,
        authenticity: 'T',
    });
    let action = Message::TradingAction(TradingAction {
        head: head(1, 10),
        stock: symbol(b"ABCD    "),
        state: 'T',
    });
    let restriction = Message::Restriction(Restriction {
        head: head(65535, 11),
        stock: symbol(b"Z       "),
        restriction: '2',
    });
    assert!(rt;
        writes(
            Feed::Depth,
            &event,
            b"S\0\0\x01\x02\x03\x04\x05\x06\x07\x08O",
        )
    );
    assert!(rt;
        writes(
            Feed::Depth,
            &directory,
            b"R\x02\x01\0\0\0\0\0\0\0\x09LONGNAME \xff\xfe\xfd\xfcT",
        )
    );
    assert!(rt; writes(Feed::Bbbo, &action, b"H\0\x01\0\0\0\0\0\0\0\x0aABCD    T"));
    assert!(rt;
        writes(
            Feed::LastSale,
            &restriction,
            b"Y\xff\xff\0\0\0\0\0\0\0\x0bZ       2",
        )
    );
}

#[test]
fn rows_of_orders(rt: HostRuntime) {
    let add = Message::Add(Add {
        head: head(1, 12),
        reference: 0x1112_1314_1516_1718,
        side: 'S',
        shares: 1_000_000,
        stock: symbol(b"A.B     "),
        price: 100_000_000,
    });
    let execute = Message::Execute(Execute {
        head: head(1, 13),
        reference: 7,
        shares: 40,
        match_number: 0x2122_2324_2526_2728,
    });
    let cancel = Message::Cancel(Cancel {
        head: head(1, 14),
        reference: 7,
        shares: 258,
    });
    let delete = Message::Delete(Delete {
        head: head(1, 15),
        reference: 0xF1F2_F3F4_F5F6_F7F8,
    });
    assert!(rt;
        writes(
            Feed::Depth,
            &add,
            b"A\0\x01\0\0\0\0\0\0\0\x0c\x11\x12\x13\x14\x15\x16\x17\x18S\0\x0fB@A.B     \0\0\0\0\x05\xf5\xe1\0",
        )
    );
    assert!(rt;
        writes(
            Feed::Depth,
            &execute,
            b"E\0\x01\0\0\0\0\0\0\0\x0d\0\0\0\0\0\0\0\x07\0\0\0(!\x22#$%&'(",
        )
    );
    assert!(rt;
        writes(
            Feed::Depth,
            &cancel,
            b"X\0\x01\0\0\0\0\0\0\0\x0e\0\0\0\0\0\0\0\x07\0\0\x01\x02",
        )
    );
    assert!(rt;
        writes(
            Feed::Depth,
            &delete,
            b"D\0\x01\0\0\0\0\0\0\0\x0f\xf1\xf2\xf3\xf4\xf5\xf6\xf7\xf8",
        )
    );
}

fn replace() -> Message<'static> {
    Message::Replace(Replace {
        head: head(1, 16),
        original: 7,
        new_reference: 8,
        shares: 50,
        price: 100_100,
    })
}

fn correct() -> Message<'static> {
    Message::Correct(Correct {
        head: head(1, 17),
        match_number: 9,
        new_match_number: 10,
        shares: 30,
        price: 2_000_000_000,
    })
}

fn broken() -> Message<'static> {
    Message::Break(Break {
        head: head(1, 18),
        match_number: 10,
    })
}

#[test]
fn rows_of_replaced_orders_and_trades(rt: HostRuntime) {
    assert!(rt;
        writes(
            Feed::Depth,
            &replace(),
            b"U\0\x01\0\0\0\0\0\0\0\x10\0\0\0\0\0\0\0\x07\0\0\0\0\0\0\0\x08\0\0\02\0\0\0\0\0\x01\x87\x04",
        )
    );
    assert!(rt;
        writes(
            Feed::Depth,
            &correct(),
            b"C\0\x01\0\0\0\0\0\0\0\x11\0\0\0\0\0\0\0\x09\0\0\0\0\0\0\0\x0a\0\0\0\x1e\0\0\0\0w5\x94\0",
        )
    );
    assert!(rt;
        writes(
            Feed::Depth,
            &broken(),
            b"B\0\x01\0\0\0\0\0\0\0\x12\0\0\0\0\0\0\0\x0a",
        )
    );
}

#[test]
fn rows_of_quotes_and_sales(rt: HostRuntime) {
    let quote = Message::Quote(Quote {
        head: head(2, 19),
        stock: symbol(b"XY      "),
        bid: 0,
        bid_size: 0,
        offer: 2_000_000_000,
        offer_size: 0xFFFF_FFFF,
    });
    let sale = Message::Sale(Sale {
        head: head(3, 20),
        stock: symbol(b"MNO     "),
        match_number: 77,
        price: 1,
        size: 1,
    });
    let cancel = Message::SaleCancel(Sale {
        head: head(3, 21),
        stock: symbol(b"MNO     "),
        match_number: 78,
        price: 2_000_000_000,
        size: 50_000,
    });
    assert!(rt;
        writes(
            Feed::Bbbo,
            &quote,
            b"Q\0\x02\0\0\0\0\0\0\0\x13XY      \0\0\0\0\0\0\0\0\0\0\0\0\0\0\0\0w5\x94\0\xff\xff\xff\xff",
        )
    );
    assert!(rt;
        writes(
            Feed::LastSale,
            &sale,
            b"T\0\x03\0\0\0\0\0\0\0\x14MNO     \0\0\0\0\0\0\0M\0\0\0\0\0\0\0\x01\0\0\0\x01",
        )
    );
    assert!(rt;
        writes(
            Feed::LastSale,
            &cancel,
            b"X\0\x03\0\0\0\0\0\0\0\x15MNO     \0\0\0\0\0\0\0N\0\0\0\0w5\x94\0\0\0\xc3P",
        )
    );
}
