//! Plays each capture of data/ as bookday does, and writes its name and what there is to tell.

#![tactic(auto)]

use small_day::tell;
use std::io::Write;
use std::{fs, io};

/// Room for a fault's line and 512 lines of a report.
const OUTPUT: usize = 40_000;

fn main(rt: HostRuntime) -> io::Result<()> {
    let mut out = vec![in rt.alloc(); 0u8; OUTPUT]?;
    for name in [
        "day",
        "empty",
        "countzero",
        "short",
        "overlap",
        "overrun",
        "wrapoffset",
        "garbage",
        "emptymessage",
        "badmessage",
        "lastsalex",
        "badcode",
        "badfield",
        "refused",
        "reused",
        "gaps",
        "manystocks",
    ] {
        println!(rt; "{name}")?;
        one(&rt, name, &mut out)?;
    }
    Ok(())
}

fn one(rt: &HostRuntime, name: &str, out: &mut [u8]) -> io::Result<()> {
    let input = fs::read(rt, name)?;
    let len = tell(rt.alloc(), &input, out)?;
    rt.stdout().write_all(&out[..len])
}
