//! The words of a command's line.

/// What a word of a line is.
#[derive(Clone, Copy)]
pub enum Kind {
    /// A slot that has to hold an open list.
    Open,
    /// A slot that has to hold a frozen list.
    Frozen,
    /// A slot that has to hold a list.
    Held,
    /// A slot that has to be empty.
    Vacant,
    /// A slot that has to hold a frozen list, or `-`.
    Validity,
    /// A number in decimal.
    Number,
    /// `0` or `1`.
    Truth,
    /// `ref` or `own`.
    Mode,
    /// Bytes in pairs of digits, or `-`.
    Hex,
    /// Numbers separated by commas, or `-`.
    Numbers,
    /// Numbers separated by commas, each with or without a `-` before it, or `-`.
    Indexes,
}

/// What becomes of the list of a line.
#[derive(Clone, Copy)]
pub enum Then {
    /// It is stored as an open list.
    Opens,
    /// It is stored as a frozen list.
    Freezes,
    /// It is stored as open or frozen, like the list of the first slot.
    Keeps,
    /// It is gone.
    Empties,
    /// It stays, and the command returns something about it.
    Answers,
}

/// Whether a command can run out of memory.
#[derive(Clone, Copy)]
pub enum Memory {
    /// It can.
    Asks,
    /// It can't.
    Never,
}

/// The name of a command, its other words, what becomes of its list, and whether it can run out of
/// memory.
#[derive(Clone, Copy)]
pub struct Form(pub &'static str, pub &'static [Kind], pub Then, pub Memory);
