//! Numbers that look random, the same in each run.
ghost use Rattle.std.specs.Prelude.{◌<◌};

/// A linear congruence, of which the high bits are taken.
#[derive(Drop)]
pub struct Sequence {
    state: u64,
}

impl Sequence {
    /// From a fixed beginning.
    pub fn new() -> Sequence {
        Sequence { state: 1 }
    }

    /// The next number of 32 bits.
    pub fn word(&mut self) -> u32 {
        self.state = self
            .state
            .wrapping_mul(6364136223846793005)
            .wrapping_add(1442695040888963407);
        (self.state >> 32) as u32
    }

    /// The next number below a limit.
    pub fn below(&mut self, limit: u32) -> u64
        requires { 0 < limit }
        ensures { result < limit }
    {
        u64::from(self.word() % limit)
    }

    /// A number of 0 to 63 bits, each of these lengths as likely as another.
    pub fn of_any_size(&mut self) -> u64 {
        let bits = self.word() % 64;
        let high = u64::from(self.word()) << 32;
        let all = high | u64::from(self.word());
        if bits == 0 {
            return 0;
        }
        (all | 1 << 63) >> (64 - bits)
    }
}
