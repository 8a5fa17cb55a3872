//! Lists captures of data/ through a small buffer, page by page, and writes the feed's name and the file's before each.

#![tactic(auto)]

use capture::judge;
use listing::listing::Listing;
use listing::{feed_named, put_index_fault};
use std::io::Write;
use std::{fs, io};

/// Room for a few lines: most captures take several pages.
const PAGE: usize = 512;

fn main(rt: HostRuntime) -> io::Result<()> {
    for (feed, name) in [
        ("depth", "depth"),
        ("bbbo", "bbbo"),
        ("sale", "sale"),
        ("sale", "depth"),
        ("depth", "sale"),
        ("bbbo", "countzero"),
        ("depth", "empty"),
        ("depth", "overlap"),
        ("sale", "overrun"),
        ("Depth", "depth"),
        ("", "depth"),
        ("sales", "sale"),
    ] {
        println!(rt; "{feed} {name}")?;
        one(&rt, feed, name)?;
    }
    Ok(())
}

// As feedcat lists, through a small buffer: two programs have only the library in common.
fn one(rt: &HostRuntime, feed: &str, name: &str) -> io::Result<()> {
    let Some(feed) = feed_named(feed) else {
        return println!(rt; "no such feed");
    };
    let input = fs::read(rt, name)?;
    let mut page = vec![in rt.alloc(); 0u8; PAGE]?;
    if let Err(fault) = judge(&input) {
        return write_front(rt, put_index_fault(fault, &mut page).unwrap_or(0), &page);
    }
    let mut listing = Listing::over(feed, &input);
    while listing.left() > 0 {
        let len = listing.fill(&mut page);
        write_front(rt, len, &page)?;
    }
    let len = listing.put_summary(&mut page).unwrap_or(0);
    write_front(rt, len, &page)
}

/// Writes so many bytes of the page.
fn write_front(rt: &HostRuntime, len: usize, page: &[u8]) -> io::Result<()> {
    rt.stdout().write_all(&page[..len.min(page.len())])
}
