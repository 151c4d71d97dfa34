//! Runs of a test that refuse each of its requests in turn.
ghost use Rattle.std.specs.Iterator.{at_most};
ghost use Rattle.std.specs.Prelude.{◌≡◌, ◌⊎◌};

use crate::Refusing;
use std::alloc::Allocator;

/// The maximum number of runs, so that a trial that never stops making more requests fails its
/// test.
const MOST_RUNS: u64 = 1000;

/// The runs of a trial over one allocator. Run `n` refuses request `n`, unless it makes fewer
/// requests.
///
/// `next` begins a run, and returns the number of the request to refuse. The last run is the first
/// one without a refused request, or the 1000th.
#[derive(Drop)]
pub struct InTurn<'a, B: Allocator> {
    heap: &'a Refusing<B>,
    left: u64,
}

impl<'a, B: Allocator> Iterator for InTurn<'a, B> {
    type Item = u64;

    ghost remaining = { λ runs. at_most runs.left };

    fn next(&mut self) -> Option<u64> {
        let is_first = self.left == MOST_RUNS;
        if self.left == 0 || !is_first && !self.heap.has_refused() {
            return None;
        }
        self.left -= 1;
        let request = MOST_RUNS.saturating_sub(self.left);
        self.heap.refuse(request);
        Some(request)
    }
}

impl<B: Allocator> Refusing<B> {
    /// Returns runs that refuse each request in turn. After the last run, [`Refusing::asked`]
    /// returns the number of its requests, and [`Refusing::has_ended`] tests this number and that
    /// no request was refused.
    pub fn in_turn(&self) -> InTurn<'_, B> {
        InTurn {
            heap: self,
            left: MOST_RUNS,
        }
    }

    /// Returns whether the last run had no request refused, and made exactly `requests` requests.
    /// Returns false if each of 1000 runs had a request refused.
    pub fn has_ended(&self, requests: u64) -> bool {
        !self.has_refused() && self.asked() == requests
    }

    /// Returns the expected result of a run: `refusal` if a request was refused, else `ample`.
    pub fn wanted<T: Copy>(&self, ample: T, refusal: T) -> T
        ensures { (result ≡ ample) ⊎ (result ≡ refusal) }
    {
        if self.has_refused() { refusal } else { ample }
    }
}

#[cfg(test)]
mod tests;
