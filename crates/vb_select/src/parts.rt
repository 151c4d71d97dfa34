//! The parts of a window that are read separately.

/// The parts of a window, from front to end.
#[derive(Clone, Copy)]
pub(crate) struct Parts {
    /// The number of bits up to the first whole byte, all within one byte.
    pub(crate) head: usize,
    /// The number of whole chunks of 64 bytes.
    pub(crate) chunks: usize,
    /// The number of bits after the chunks, fewer than 512.
    pub(crate) rest: usize,
}

impl Parts {
    ghost use Rattle.vb_select.specs.Parts.{IsCutOf};

    /// Returns the parts of the window of `len` bits from bit `offset` on.
    pub(crate) fn of(offset: usize, len: usize) -> Parts
        ensures { IsCutOf offset len result }
    {
        let head = len.min((8 - offset % 8) % 8);
        Parts {
            head,
            chunks: (len - head) / 512,
            rest: (len - head) % 512,
        }
    }
}
