ghost use Rattle.std.specs.Prelude.{◌<◌};

use std::alloc::Global;
use zone_outside::NoMemory;

/// Numbers drawn from a fixed seed, by a linear congruence modulo 2^64.
#[derive(Drop)]
pub(crate) struct Draws {
    state: u64,
}

impl Draws {
    pub(crate) fn new(seed: u64) -> Draws {
        Draws { state: seed }
    }

    /// A number below `most`.
    pub(crate) fn below(&mut self, most: u64) -> u64
        requires { 0 < most }
        ensures { result < most }
    {
        self.state = self
            .state
            .wrapping_mul(6_364_136_223_846_793_005)
            .wrapping_add(1_442_695_040_888_963_407);
        (self.state >> 33) % most
    }

    /// Whether an event of this many times in a hundred happens.
    pub(crate) fn happens(&mut self, percent: u64) -> bool {
        self.below(100) < percent
    }

    /// The next moment: mostly a little later, at times much later or earlier.
    pub(crate) fn moment(&mut self, now: u64, little: u64, much: u64) -> u64
        requires little { 0 < little }
        requires much { 0 < much }
    {
        match self.below(40) {
            0 => now.saturating_add(self.below(much)),
            1 => now.saturating_sub(self.below(much)),
            _ => now.saturating_add(self.below(little)),
        }
    }

    /// One of `keys` keys, half of the time one of the first eight. It has 1 to 255 bytes, or, where they may be long, up to 300 and a few 5,000.
    pub(crate) fn key(&mut self, alloc: Global, keys: u64, long: bool) -> Result<Vec<u8>, NoMemory>
        requires { 0 < keys }
    {
        let number = if self.happens(50) {
            self.below(8)
        } else {
            self.below(keys)
        };
        let len = if !long {
            1 + number.wrapping_mul(37) % 255
        } else if number % 64 == 63 {
            5000
        } else {
            1 + number.wrapping_mul(37) % 300
        };
        let mut key = Vec::new(alloc);
        for at in 0..len {
            key.push((number.wrapping_add(at / 5) % 251) as u8)?;
        }
        Ok(key)
    }
}
