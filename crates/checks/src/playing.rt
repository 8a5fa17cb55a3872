//! Playing from a pair, and the texts.

use book::fault::{BookFault, PlayFault};
use book::value::{Order, Stock, Trade};
use capture::fault::CaptureFault;
use day::{play, put_fault, put_report};
use engine::making::Engine;
use ordered::Ordered;
use std::process::Abort;
use store::Store;
use wire::fault::Layer;

/// The events O and S, behind an index of two pairs.
const TWO_EVENTS: &[u8; 40] =
    b"\0\0\0\x02\0\0\0\x10\0\x0C\0\0\0\x1C\0\x0CS\0\0\0\0\0\0\0\0\0\x01OS\0\0\0\0\0\0\0\0\0\x02S";

/// The number, layer, place and pair of the fault that playing ends with.
fn told(played: Result<usize, PlayFault>) -> Option<(u8, Layer, u64, usize)> {
    let fault = played.err()?;
    Some((fault.number(), fault.layer(), fault.place(), fault.pair()))
}

fn from_a_pair<S: Store<Stock> + Drop, O: Store<Order> + Drop, M: Store<Trade> + Drop>(
    rt: &impl Abort,
    stocks: S,
    orders: O,
    trades: M,
) {
    let mut engine = Engine::new(stocks, orders, trades);
    let mut buf = [b'.'; 4];
    assert!(rt; told(play(&mut engine, TWO_EVENTS, 3)) == Some((27, Layer::Capture, 0, 3)));
    assert!(rt; told(play(&mut engine, TWO_EVENTS, 1)) == Some((11, Layer::Book, 11, 1)));
    assert!(rt; play(&mut engine, TWO_EVENTS, 2) == Ok(0));
    assert!(rt; play(&mut engine, TWO_EVENTS, 0) == Ok(2));
    assert!(rt; put_report(&engine, &mut buf) == Ok(0));
    assert!(rt; buf[0] == b'.');
}

#[test]
fn a_capture_is_played_from_a_pair(rt: HostRuntime) {
    let mut stocks = [None; 1];
    let mut orders = [None; 1];
    let mut trades = [None; 1];
    from_a_pair(
        &rt,
        Ordered::over(&mut stocks),
        Ordered::over(&mut orders),
        Ordered::over(&mut trades),
    );
}

#[test]
fn a_fault_needs_its_whole_line(rt: HostRuntime) {
    let fault = PlayFault::Index(CaptureFault::Cut);
    let mut short = [b'.'; 23];
    let mut long = [b'.'; 25];
    let refused = put_fault(fault, &mut short).err();
    assert!(rt; refused == Some(BookFault::ShortBuffer(23)));
    assert!(rt; refused.map(BookFault::number) == Some(28));
    assert!(rt; refused.map(BookFault::place) == Some(23));
    assert!(rt; short[0] == b'.');
    assert!(rt; put_fault(fault, &mut long) == Ok(24));
    assert!(rt; long.starts_with(b"fault 24 place 0 pair 0\n."));
}
