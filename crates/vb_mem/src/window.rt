//! The part of a storage that a buffer shows.
use vb_core::Alignment;

/// Items of a storage, from index `start` on, and the alignment that the buffer reports for them.
#[derive(Clone, Copy)]
pub(crate) struct Window {
    pub(crate) start: usize,
    pub(crate) len: usize,
    pub(crate) alignment: Alignment,
}
