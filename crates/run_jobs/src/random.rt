//! Numbers that look random.
ghost use Rattle.std.specs.Prelude.{◌<◌, ◌≤◌};

use anyhow::Result;
use std::alloc::Global;

/// A sequence of numbers that a seed determines: SplitMix64, of Steele, Lea and Flood.
#[derive(Clone, Copy)]
pub struct Random {
    state: u64,
}

impl Random {
    /// Returns the sequence of a seed.
    pub fn new(seed: u64) -> Self {
        Random { state: seed }
    }

    /// Returns the next number.
    #[inline(always)]
    pub fn number(&mut self) -> u64 {
        self.state = self.state.wrapping_add(0x9E37_79B9_7F4A_7C15);
        let mut mixed = self.state;
        mixed = (mixed ^ (mixed >> 30)).wrapping_mul(0xBF58_476D_1CE4_E5B9);
        mixed = (mixed ^ (mixed >> 27)).wrapping_mul(0x94D0_49BB_1331_11EB);
        mixed ^ (mixed >> 31)
    }

    /// Returns a number below `end`; 0 if `end` is 0.
    #[inline(always)]
    pub fn below(&mut self, end: usize) -> usize
        ensures below { 0 < end → result < end }
        ensures most { result ≤ end }
    {
        let number = self.number();
        if end == 0 {
            return 0;
        }
        if end < 4_294_967_296 {
            return ((number >> 32) as u32 % end as u32) as usize;
        }
        (number % end as u64) as usize
    }

    /// Returns the next `words` numbers as bytes.
    pub fn bytes(&mut self, alloc: Global, words: usize) -> Result<Vec<u8>> {
        let mut bytes = Vec::new(alloc);
        for _ in 0..words {
            bytes.extend_from_slice(&self.number().to_le_bytes())?;
        }
        Ok(bytes)
    }
}
