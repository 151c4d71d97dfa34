//! Bits over slices of bytes, least significant first: bit `i` is digit `i % 8` of byte `i / 8`.
//!
//! A window is the `len` bits from bit `offset` on. The caller must prove that it is in bounds and
//! that `offset + len` fits in a `usize`; [`window_fits`] tests both at run time. A call that
//! writes changes only the bits of its window. No call allocates.
#![tactic(auto)]

mod bit;
mod bytes;
mod copy;
mod equal;
mod few;
mod fill;
mod into;
mod lanes;
mod map;
mod mark;
mod merge;
mod operator;
mod read;
mod select;
mod window;
mod word;
mod write;
mod zip;

pub use bit::{get_bit, get_bit_unchecked, set_bit_to, set_bit_unchecked, unset_bit_unchecked};
pub use bytes::{chunk_at, word_at, write_word};
pub use copy::{copy_bits, write_digits};
pub use equal::equal_bits;
pub use fill::fill_bits;
pub use into::zip_into;
pub use lanes::{shifted_words, words_at};
pub use map::map_words;
pub use mark::set_bits_at;
pub use operator::{And, AndNot, Merge, Or, Xor};
pub use read::{full_word, read_bits, read_short, read_u64_le, read_word};
pub use select::{select_in_byte, select_in_word};
pub use window::window_fits;
pub use word::{digit, low_digits};
pub use write::write_in_byte;
pub use zip::{BitOp, zip_words};
