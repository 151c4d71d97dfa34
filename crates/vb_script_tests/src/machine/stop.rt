//! Why the plain machine stops.
use std::alloc::AllocError;

/// Why a line isn't carried out.
#[derive(Clone, Copy)]
pub(crate) enum Stop {
    /// It is refused: the answer is `refused` and then this text.
    Refused(&'static str),
    /// The list's new length is so near to 2^64 that the offset of its first bit decides between
    /// two refusals.
    TooLong,
    /// The index at this position of a `take` is out of range.
    Position(usize),
    /// There is no memory for the plain machine itself.
    Memory,
}

pub(crate) const BAD_SLOT: Stop = Stop::Refused("BadSlot");

pub(crate) const OUT_OF_RANGE: Stop = Stop::Refused("OutOfRange");

pub(crate) const OUT_OF_MEMORY: Stop = Stop::Refused("OutOfMemory");

impl From<AllocError> for Stop {
    fn from(_: AllocError) -> Stop {
        Stop::Memory
    }
}
