//! Code as users of `vortex_buffer` write it: a column with nulls, read from a page; decoders of
//! runs and of a dictionary; a filter by a condition; names of a small file format, each after its
//! length in one byte; and parts of an engine: a source of bits and a directory of counts for the
//! counted kernels, a loop over the words of bits, sequences of known length, and conversions of
//! values through bytes. It uses no other crate of the library.
#![tactic(auto)]

mod bytes;
mod column;
mod condition;
mod dictionary;
mod directory;
mod error;
mod filter;
mod masked;
mod page;
mod reading;
mod runs;
mod sequences;
mod source;
#[cfg(test)]
mod tests;
mod words;

pub use bytes::{through_bytes, values_of};
pub use column::Column;
pub use condition::Condition;
pub use dictionary::decode_dictionary;
pub use directory::{Narrow, select_narrow};
pub use error::ReadError;
pub use filter::{filtered, matching_rows, rows_failing, rows_where};
pub use masked::{masked_min_max, masked_sum};
pub use page::{PageError, read_page};
pub use reading::read_name;
pub use runs::{Run, decode_runs};
pub use sequences::{greater, halved, rest_halved};
pub use source::{Metered, count_metered};
pub use words::count_words;
