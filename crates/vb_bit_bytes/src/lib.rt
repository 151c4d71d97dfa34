//! Bits in byte buffers: the steps from which sets of bits are made, edited and grown.
//!
//! The index of a bit counts from the start of the bytes, least significant bit first. Indices and
//! lengths are in bits. A window is the `len` bits from bit `offset` on; it must be in its bytes,
//! and `offset + len` must fit in a `usize`. A "must" in a docstring is a condition that the caller
//! has to prove. An edit changes the bits that it names and no other bits of their bytes, and does
//! not allocate.
#![tactic(auto)]

mod bytewise;
mod collect;
mod edit;
mod grow;
mod indices;
mod iter;
mod lengthen;
mod make;
mod shown;
mod window;

pub use bytewise::combine_into;
pub use collect::{collect_bool, collect_bool_shared, from_bools, from_truthy, map_bool_shared};
pub use edit::{combine, copy, fill, negate, write_bit};
pub use grow::{push_bit, push_bit_unchecked, push_bits, reserve_exactly_to, reserve_to};
pub use indices::{from_indices, from_indices_shared};
pub use iter::{from_iter, next_word};
pub use lengthen::push_word_unchecked;
pub use make::{full, unaligned};
pub use shown::write_bits;
pub use window::push_window;
