//! The error of a stream.

/// A read or a write failed. It has no details: the maker of the stream knows the cause.
#[derive(Clone, Copy, Debug, PartialEq, Eq)]
pub struct Fault;
