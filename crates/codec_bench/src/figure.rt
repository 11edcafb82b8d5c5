//! The figures: of several runs the shortest, in nanoseconds a value.
ghost use Rattle.std.specs.Prelude.{◌<◌};

use std::io;
use std::time::Duration;

/// How many values are encoded and decoded in a run.
pub const VALUES: u32 = 100000;

/// How many runs there are.
pub const RUNS: u32 = 100;

/// The shortest of some runs.
#[derive(Drop)]
pub struct Shortest {
    nanos: u64,
}

impl Shortest {
    /// Of none.
    pub fn new() -> Shortest {
        Shortest { nanos: u64::MAX }
    }

    /// Of one more.
    pub fn add(&mut self, took: Duration) {
        let nanos = u64::try_from(took.as_nanos()).unwrap_or(u64::MAX);
        self.nanos = self.nanos.min(nanos);
    }

    /// Prints it as hundredths of a nanosecond, for each of the values of a run.
    pub fn print(&self, rt: &HostRuntime, name: &str, what: &str, values: u32) -> io::Result<()> {
        let hundredths = u128::from(self.nanos) * 100 / u128::from(values.max(1));
        println!(rt;
            "{name}, {what}: {}.{:02} ns",
            hundredths / 100,
            hundredths % 100
        )
    }

    /// Prints how many millions of bytes a second that is, for so many bytes in a run.
    pub fn print_rate(
        &self,
        rt: &HostRuntime,
        name: &str,
        what: &str,
        bytes: u64,
    ) -> io::Result<()> {
        let rate = u128::from(bytes) * 1000 / u128::from(self.nanos.max(1));
        println!(rt; "{name}, {what}: {rate} MB/s")
    }
}

/// What was read is what was written, or the run counts for nothing.
pub fn same_sum(read: Option<u64>, written: u64) -> io::Result<()> {
    if read == Some(written) {
        return Ok(());
    }
    Err(io::Error::other("what was read is not what was written"))
}
