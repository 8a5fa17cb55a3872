//! Feeds a short day message by message over stores of 1, 2 and 3 places, and writes each answer and what the readings tell.

#![tactic(auto)]

use book::value::{Order, Standing, Stock, Sums, Trade};
use capture::Capture;
use engine::making::Engine;
use ordered::Ordered;
use std::{fs, io};
use store::Store;

fn main(rt: HostRuntime) -> io::Result<()> {
    let capture = fs::read(&rt, "capture")?;
    let mut stocks = [None; 1];
    let mut orders = [None; 2];
    let mut trades = [None; 3];
    feed_all(
        &rt,
        Ordered::over(&mut stocks),
        Ordered::over(&mut orders),
        Ordered::over(&mut trades),
        &capture,
    )
}

fn feed_all<S: Store<Stock> + Drop, O: Store<Order> + Drop, M: Store<Trade> + Drop>(
    rt: &HostRuntime,
    stocks: S,
    orders: O,
    trades: M,
    capture: &[u8],
) -> io::Result<()> {
    let mut engine = Engine::new(stocks, orders, trades);
    if let Ok(capture) = Capture::judge(capture) {
        for (pair, bytes) in capture.messages_from(0) {
            match engine.feed(bytes) {
                Ok(accepted) => println!(rt; "{pair} count {accepted}")?,
                Err(fault) => println!(rt;
                    "{pair} fault {} place {}",
                    fault.number(),
                    fault.place()
                )?,
            }
            if let Ok(stock) = engine.stock(1) {
                put_sums(rt, &stock.sums)?;
            }
        }
    }
    if let Ok(stock) = engine.stock(1) {
        put_stock(rt, &stock)?;
    }
    if let Err(fault) = engine.stock(2) {
        println!(rt; "stock 2 fault {} place {}", fault.number(), fault.place())?;
    }
    for reference in [7, 8, 20, 21] {
        put_order(rt, reference, engine.order(reference))?;
    }
    for number in [9, 10, 11, 12] {
        put_trace(rt, number, engine.trace(number))?;
    }
    Ok(())
}

/// The sums of a stock.
fn put_sums(rt: &HostRuntime, sums: &Sums) -> io::Result<()> {
    let Sums {
        added,
        executed,
        removed,
        open_shares,
        open_orders,
        live_trades,
        live_volume,
        turnover,
    } = *sums;
    println!(rt;
        "  added {added} executed {executed} removed {removed} open {open_shares} in {open_orders} live {live_volume} in {live_trades} turnover {turnover}"
    )
}

/// The other fields of a stock.
fn put_stock(rt: &HostRuntime, stock: &Stock) -> io::Result<()> {
    print!(rt;
        "stock 1 category {} lot {} authenticity {} {} ",
        stock.listing.category, stock.listing.lot, stock.listing.authenticity, stock.state
    )?;
    match stock.restriction {
        Some(restriction) => print!(rt; "{restriction}")?,
        None => print!(rt; "none told")?,
    }
    println!(rt; " stamp {}", stock.stamp)
}

fn put_order(rt: &HostRuntime, reference: u64, order: Option<Order>) -> io::Result<()> {
    match order {
        Some(order) => println!(rt;
            "order {reference} locate {} {} at {}",
            order.locate, order.shares, order.price
        ),
        None => println!(rt; "order {reference} absent"),
    }
}

fn put_trace(rt: &HostRuntime, number: u64, trace: Option<(u64, Standing, u64)>) -> io::Result<()> {
    match trace {
        Some((last, standing, steps)) => println!(rt;
            "trace {number} ends at {last} {standing} after {steps}"
        ),
        None => println!(rt; "trace {number} absent"),
    }
}
