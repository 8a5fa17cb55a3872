//! The lines of an audit.

ghost use Rattle.std.specs.Prelude.{◌≡◌, IfOk};
ghost use Rattle.accounts.specs.Account.{open_law, trade_law, wrong, broken_laws};

use accounts::account::{Account, Flow};
use book::value::Stock;
use std::alloc::AllocError;
use text::fault_line::FaultLine;
use text::line::symbol_len;

/// Writes a refusal. Into a `String`, where the line's own `put` writes to lent bytes.
pub(crate) fn put_fault(text: &mut String, fault: FaultLine) -> Result<(), AllocError> {
    let FaultLine {
        number,
        place,
        pair,
    } = fault;
    writeln!(text, "fault {number} place {place} pair {pair}")
}

/// Writes a stock's three laws, and answers how many of them do not balance.
pub(crate) fn put_stock(
    text: &mut String,
    locate: u16,
    account: Account,
    stock: &Stock,
) -> Result<usize, AllocError>
    ensures { IfOk result (λ n. n ≡ broken_laws account stock.now.sums) }
{
    write!(text, "stock {locate} ")?;
    put_symbol(text, &stock.listing.symbol)?;
    text.push('\n')?;
    let read = stock.sums;
    let open = put_open_shares(text, account, read.open_shares)?;
    let volume = put_trades(text, "live volume", account.volume, read.live_volume)?;
    let turnover = put_trades(text, "turnover", account.turnover, read.turnover)?;
    Ok(wrong(open) + wrong(volume) + wrong(turnover))
}

/// Writes that the engine does not know a stock that has an account.
pub(crate) fn put_unknown(text: &mut String, locate: u16) -> Result<(), AllocError> {
    writeln!(text, "stock {locate} NOT known")
}

/// Open shares = added - executed - removed.
fn put_open_shares(text: &mut String, account: Account, reading: u64) -> Result<bool, AllocError>
    ensures { IfOk result (λ b. b ≡ open_law account reading) }
{
    let Account {
        added,
        removed,
        volume: Flow { executed, .. },
        ..
    } = account;
    let balanced = account.open_shares_balance(reading);
    let said = verdict(balanced);
    writeln!(
        text,
        "  open shares {reading} = {added} added - {executed} executed - {removed} removed: {said}"
    )?;
    Ok(balanced)
}

/// Live volume or turnover = executed - broken, and the net of corrections.
fn put_trades(text: &mut String, name: &str, flow: Flow, reading: u64) -> Result<bool, AllocError>
    ensures { IfOk result (λ b. b ≡ trade_law flow reading) }
{
    let Flow {
        executed,
        broken,
        undone,
        redone,
    } = flow;
    let sign = if undone <= redone { '+' } else { '-' };
    let net = undone.abs_diff(redone);
    let balanced = flow.balances(reading);
    let said = verdict(balanced);
    writeln!(
        text,
        "  {name} {reading} = {executed} executed - {broken} broken {sign} {net} corrected: {said}"
    )?;
    Ok(balanced)
}

fn verdict(balanced: bool) -> &'static str {
    if balanced { "balanced" } else { "NOT balanced" }
}

/// How many laws a verdict adds to those that do not balance.
fn wrong(balanced: bool) -> usize
    ensures { result ≡ wrong balanced }
{
    usize::from(!balanced)
}

/// A symbol without its filling.
fn put_symbol(text: &mut String, symbol: &[u8; 8]) -> Result<(), AllocError> {
    for byte in &symbol[..symbol_len(symbol)] {
        text.push(char::from(*byte))?;
    }
    Ok(())
}
