//! A run of ones of a word.

/// The lowest run of ones of a word.
#[derive(Clone, Copy)]
pub struct LowestRun {
    /// The index of its lowest digit.
    pub start: usize,
    /// The index after its highest digit.
    pub end: usize,
    /// The word without the run.
    pub rest: u64,
}
