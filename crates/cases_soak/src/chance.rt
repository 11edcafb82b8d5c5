//! Numbers that look random: splitmix64, so that a seed decides all.

/// A generator of numbers.
#[derive(Drop)]
pub struct Chance {
    state: u64,
}

impl Chance {
    /// Returns the generator of a seed.
    pub fn new(seed: u64) -> Chance {
        Chance { state: seed }
    }

    /// Returns the next number.
    pub fn word(&mut self) -> u64 {
        self.state = self.state.wrapping_add(0x9e37_79b9_7f4a_7c15);
        let a = (self.state ^ (self.state >> 30)).wrapping_mul(0xbf58_476d_1ce4_e5b9);
        let b = (a ^ (a >> 27)).wrapping_mul(0x94d0_49bb_1331_11eb);
        b ^ (b >> 31)
    }

    /// Returns a number below a limit; 0 where that is 0.
    pub fn below(&mut self, limit: u64) -> u64 {
        self.word().checked_rem(limit).unwrap_or(0)
    }

    /// Returns a number from one to another.
    pub fn within(&mut self, least: u64, most: u64) -> u64 {
        let width = most.wrapping_sub(least).wrapping_add(1);
        least.wrapping_add(self.below(width))
    }

    /// Returns whether something comes that does so many times of a thousand.
    pub fn comes(&mut self, of_a_thousand: u64) -> bool {
        self.below(1000) < of_a_thousand
    }

    /// Returns a byte.
    pub fn byte(&mut self) -> u8 {
        (self.word() & 0xff) as u8
    }
}
