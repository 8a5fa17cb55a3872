//! Audits the capture on standard input, and writes both sides of each law and the verdicts.

#![tactic(auto)]

use audit::audit;
use std::io;
use std::io::{Read, Write};

fn main(rt: HostRuntime) -> io::Result<()> {
    let heap = rt.alloc();
    let mut input = Vec::new(heap);
    rt.stdin().read_to_end(&mut input)?;
    let audited = audit(heap, &input)?;
    rt.stdout().write_all(audited.text.as_bytes())
}
