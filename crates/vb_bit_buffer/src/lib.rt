//! Sets of bits whose storage several owners may share: [`BitBuffer`], and conversions from views.
//!
//! A set is a list of truth values: the window of its bytes that begins at bit `offset`, least
//! significant bit first. Bits outside the window never affect a result. Lengths, offsets and
//! indices are in bits; an offset plus a length always fits in `usize`. A "must" in a docstring is
//! a condition that the caller has to prove.
#![tactic(auto)]

mod bit_buffer;
mod to_bit_buffer;

pub use bit_buffer::BitBuffer;
pub use to_bit_buffer::ToBitBuffer;
