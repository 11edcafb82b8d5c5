//! What checksums take, in bytes a second.

use crate::figure::{RUNS, Shortest};
use crate::logs::item;
use sled_log::device::Checksum;
use std::io;
use std::time::Instant;

/// So many bytes are summed at once.
const BYTES: u32 = 1000000;

/// Measures how many bytes a second a checksum goes over, and prints that of the shortest run.
pub fn measure<C: Checksum>(rt: &HostRuntime, name: &str, checksum: &C) -> io::Result<()> {
    let bytes = item(rt.alloc(), BYTES)?;
    let sum = checksum.sum(&bytes);
    let mut shortest = Shortest::new();
    for _ in 0..RUNS {
        let start = Instant::now(rt)?;
        let again = checksum.sum(&bytes);
        shortest.add(start.elapsed(rt)?);
        if again != sum {
            return Err(io::Error::other("the sum of the same bytes is another"));
        }
    }
    shortest.print_rate(rt, name, "sum", u64::from(BYTES))
}
