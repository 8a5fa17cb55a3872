//! Plays one day over ordered, loose and mixed stores and over a buyer's own, and writes what each of them tells.

#![tactic(auto)]

use book::value::{Order, Stock, Trade};
use day::run;
use loose::Loose;
use ordered::Ordered;
use own_store::OwnStore;
use std::io::Write;
use std::{fs, io};
use store::Store;

/// Places in each store.
const PLACES: usize = 16;

fn main(rt: HostRuntime) -> io::Result<()> {
    let heap = rt.alloc();
    let capture = fs::read(&rt, "day")?;
    let mut stocks = vec![in heap; None; PLACES]?;
    let mut orders = vec![in heap; None; PLACES]?;
    let mut trades = vec![in heap; None; PLACES]?;
    tell(
        &rt,
        "ordered",
        Ordered::over(&mut stocks),
        Ordered::over(&mut orders),
        Ordered::over(&mut trades),
        &capture,
    )?;
    tell(
        &rt,
        "loose",
        Loose::over(&mut stocks),
        Loose::over(&mut orders),
        Loose::over(&mut trades),
        &capture,
    )?;
    tell(
        &rt,
        "mixed",
        Ordered::over(&mut stocks),
        Loose::over(&mut orders),
        Ordered::over(&mut trades),
        &capture,
    )?;
    tell(
        &rt,
        "own",
        OwnStore::with_places(heap, PLACES)?,
        OwnStore::with_places(heap, PLACES)?,
        Loose::over(&mut trades),
        &capture,
    )
}

/// Plays the capture over these stores, and writes their name and the report.
fn tell<S: Store<Stock> + Drop, O: Store<Order> + Drop, M: Store<Trade> + Drop>(
    rt: &HostRuntime,
    name: &str,
    stocks: S,
    orders: O,
    trades: M,
    capture: &[u8],
) -> io::Result<()> {
    let mut out = [0u8; 1024];
    println!(rt; "{name}")?;
    let Ok(len) = run(stocks, orders, trades, capture, &mut out) else {
        return println!(rt; "refused");
    };
    match out.get(..len) {
        Some(text) => rt.stdout().write_all(text),
        None => Ok(()),
    }
}
