//! Lists a capture from standard input: a line for each message, and at last how many there were, were refused, or differ when written again.

#![tactic(auto)]

use capture::judge;
use listing::listing::Listing;
use listing::{feed_named, put_index_fault};
use std::io::{Read, Write};
use std::{env, io};
use text::TooShort;
use wire::message::Feed;

/// How many bytes are read or written at a time.
const PIECE: usize = 1_048_576;

fn main(rt: HostRuntime) -> io::Result<()> {
    match env::args(&rt)?.nth(1).and_then(|word| feed_named(&word)) {
        Some(feed) => list(&rt, feed),
        None => println!(rt; "feedcat depth|bbbo|sale < CAPTURE"),
    }
}

/// Lists the input as a capture of this feed.
fn list(rt: &HostRuntime, feed: Feed) -> io::Result<()> {
    let mut out = vec![in rt.alloc(); 0u8; PIECE]?;
    let input = read_all(rt, &mut out)?;
    if let Err(fault) = judge(&input) {
        let told = put_index_fault(fault, &mut out);
        return write_told(rt, told, &out);
    }
    let mut listing = Listing::over(feed, &input);
    while listing.left() > 0 {
        let len = listing.fill(&mut out);
        rt.stdout().write_all(&out[..len])?;
    }
    let told = listing.put_summary(&mut out);
    write_told(rt, told, &out)
}

/// All of standard input, read into the buffer piece by piece.
// Not `read_to_end`: it makes room before the read that finds the end, and so asks for twice the memory of an input of 2^k bytes.
fn read_all(rt: &HostRuntime, piece: &mut [u8]) -> io::Result<Vec<u8>> {
    let mut input = Vec::new(rt.alloc());
    for _ in 0..u64::MAX {
        let len = rt.stdin().read(piece)?;
        if len == 0 {
            break;
        }
        input.extend_from_slice(&piece[..len])?;
    }
    Ok(input)
}

/// Writes a text that was put to the front of a buffer.
fn write_told(rt: &HostRuntime, told: Result<usize, TooShort>, out: &[u8]) -> io::Result<()> {
    let len = told.map_err(|_| io::Error::from(io::ErrorKind::Other))?;
    rt.stdout().write_all(&out[..len.min(out.len())])
}
