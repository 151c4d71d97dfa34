//! Ranks and selects over a table of counts, with few reads of the bits and of the table.
//!
//! The rank of index `i` is the number of set bits before it; the select of `n` is the index of the
//! `n`-th set bit, counted from 0. The bits are cut into blocks of 512. A table has one entry for
//! each block: the number of set bits before the block. [`table_of`] builds one. [`rank_by`],
//! [`select_by`] and [`select_unset_by`] work over any [`Probe`] of a table and any `Glance` at the
//! bits. If counts are stored in another way, call the parts of these functions: [`find_block`],
//! [`rank_from`] and [`select_from`], and for eight selects at once [`find_blocks`] and
//! [`select_each_from`].
//!
//! Lengths, offsets and indices are in bits. A look is a read of up to 64 bytes of bits; a probe is
//! the read of an entry. A "must" in a docstring is a condition that the caller has to prove.
#![tactic(auto)]

mod block;
mod count;
mod front_mask;
mod level;
mod probe;
mod rank;
mod select;
mod side_by_side;
mod size;
mod table;

pub use block::find_block;
pub use level::Level;
pub use probe::{PlainTable, Probe, TallyTable};
pub use rank::{rank_by, rank_from};
pub use select::{select_by, select_from, select_unset_by};
pub use side_by_side::{LANES, find_blocks, select_each_from};
pub use size::BLOCK_BITS;
pub use table::{table_of, write_block_counts};
