//! The vocabulary of the memory layer: alignments, the elements of buffers, indices of bits,
//! iterators of known length, lists of elements as bytes, and the errors that calls return.
#![tactic(auto)]

mod alignment;
mod bytes;
mod element;
mod error;
mod index;
mod owned;
mod trusted;

pub use alignment::Alignment;
pub use bytes::{byte_count, bytes_of, item_count, items_of, push_bytes, read_items};
pub use element::Element;
pub use error::{BufferError, ExtendError};
pub use index::BitIndex;
pub use owned::{HasItems, OwnedItems};
pub use trusted::{TrustedLen, TrustedLenAdapter, trusted_len};

/// The result of a call that can fail.
pub type Result<T, E = BufferError> = std::result::Result<T, E>;
