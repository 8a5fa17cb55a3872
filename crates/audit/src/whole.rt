//! A whole audit, from a capture to its text.

ghost use Rattle.std.specs.Prelude.{◌≡◌, IfOk};
ghost use Rattle.audit.specs.Counts.{Counts};

use crate::journal::Journal;
use crate::lines::{put_fault, put_stock, put_unknown};
use book::fault::PlayFault;
use book::value::{Order, Stock, Trade};
use capture::Capture;
use decode::decode;
use engine::making::Engine;
use ordered::Ordered;
use std::alloc::{AllocError, Global};
use store::Store;
use text::fault_line::FaultLine;
use wire::message::Feed;

/// Places in each store.
const PLACES: usize = 65_536;

/// What an audit says, and how many messages it went through.
#[derive(Drop)]
pub struct Audited {
    pub text: String,
    pub messages: usize,
    pub accepted: usize,
    pub refused: usize,
}

/// Plays a capture message by message, passes over what is refused, and holds each stock's sums to the engine's readings.
/// Of a refused index it tells the fault alone.
pub fn audit(heap: Global, capture: &[u8]) -> Result<Audited, AllocError>
    ensures { IfOk result (λ a. Counts capture.now a.messages a.accepted a.refused) }
{
    match Capture::judge(capture) {
        Ok(capture) => {
            let mut stocks = vec![in heap; None; PLACES]?;
            let mut orders = vec![in heap; None; PLACES]?;
            let mut trades = vec![in heap; None; PLACES]?;
            audit_over(
                heap,
                Ordered::over(&mut stocks),
                Ordered::over(&mut orders),
                Ordered::over(&mut trades),
                capture,
            )
        }
        Err(fault) => {
            let mut text = String::new(heap);
            put_fault(&mut text, FaultLine::from(fault))?;
            Ok(Audited {
                text,
                messages: 0,
                accepted: 0,
                refused: 0,
            })
        }
    }
}

/// The audit of a judged capture over these stores.
fn audit_over<S: Store<Stock> + Drop, O: Store<Order> + Drop, M: Store<Trade> + Drop>(
    heap: Global,
    stocks: S,
    orders: O,
    trades: M,
    capture: Capture<'_>,
) -> Result<Audited, AllocError>
    ensures { IfOk result (λ a. Counts capture.entry.bytes.now a.messages a.accepted a.refused) }
{
    let mut engine = Engine::new(stocks, orders, trades);
    let mut journal = Journal::new(heap);
    let mut audited = Audited {
        text: String::new(heap),
        messages: capture.count(),
        accepted: 0,
        refused: 0,
    };
    for (pair, bytes) in capture.messages_from(0) {
        match engine.feed(bytes) {
            Ok(_) => {
                note(&mut journal, bytes)?;
                audited.accepted += 1;
            }
            Err(fault) => {
                let fault = PlayFault::Message(pair, fault);
                put_fault(&mut audited.text, FaultLine::from(fault))?;
                audited.refused += 1;
            }
        }
    }
    let unbalanced = put_stocks(&mut audited.text, &engine, &journal)?;
    put_end(&mut audited, unbalanced)?;
    Ok(audited)
}

/// Takes the bytes of an accepted message into the books.
fn note(journal: &mut Journal, bytes: &[u8]) -> Result<(), AllocError> {
    match decode(Feed::Depth, bytes) {
        Ok(message) => journal.take(&message),
        Err(_) => Ok(()),
    }
}

/// Writes each stock's laws in rising locate, and answers how many do not balance.
fn put_stocks<S: Store<Stock>, O: Store<Order>, M: Store<Trade>>(
    text: &mut String,
    engine: &Engine<S, O, M>,
    journal: &Journal,
) -> Result<usize, AllocError> {
    let mut unbalanced = 0usize;
    for (locate, account) in journal.accounts.iter() {
        let more = match engine.stock(*locate) {
            Ok(stock) => put_stock(text, *locate, *account, &stock)?,
            Err(_) => {
                put_unknown(text, *locate)?;
                1
            }
        };
        unbalanced = unbalanced.saturating_add(more);
    }
    Ok(unbalanced)
}

/// Writes the last line.
fn put_end(audited: &mut Audited, unbalanced: usize) -> Result<(), AllocError>
    ensures messages { audited.new.messages ≡ audited.old.messages }
    ensures accepted { audited.new.accepted ≡ audited.old.accepted }
    ensures refused { audited.new.refused ≡ audited.old.refused }
{
    let Audited {
        text,
        messages,
        accepted,
        refused,
    } = audited;
    write!(
        text,
        "{messages} messages, {accepted} accepted, {refused} refused; "
    )?;
    if unbalanced == 0 {
        writeln!(text, "all balanced")
    } else {
        writeln!(text, "{unbalanced} NOT balanced")
    }
}
