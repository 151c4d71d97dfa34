//! The modes of an operator on the slot of its left set.

/// The mode of an operator on the slot of its left set.
#[derive(Clone, Copy, Debug, PartialEq, Eq)]
pub enum Mode {
    /// The slot keeps its set.
    Ref,
    /// The slot releases its set. It is empty afterwards, unless the result goes there.
    Own,
}
