//! Plays a day from standard input, and writes the fault, if it is refused, and then the report.

#![tactic(auto)]

use small_day::tell;
use std::io;
use std::io::{Read, Write};

/// The most that is read of the input.
const INPUT: u64 = 32_768;

/// Room for a fault's line and 512 lines of a report.
const OUTPUT: usize = 40_000;

fn main(rt: HostRuntime) -> io::Result<()> {
    let heap = rt.alloc();
    let mut input = Vec::new(heap);
    rt.stdin().take(INPUT).read_to_end(&mut input)?;
    let mut out = vec![in heap; 0u8; OUTPUT]?;
    let len = tell(heap, &input, &mut out)?;
    rt.stdout().write_all(&out[..len])
}
