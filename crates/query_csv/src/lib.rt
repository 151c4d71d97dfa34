//! Reading of a CSV file (RFC 4180) in batches of rows, and writing of rows as CSV.
//!
//! [`Reader`] splits bytes into the fields of [`Rows`] by a [`Splitter`]; [`write_row`] writes
//! fields back. The crate also has helpers for queries over the fields: fields as numbers, texts
//! that are safe to print in a terminal, errors at a position of the command line ([`Source`]), and
//! [`Failure`], the error of every crate of the program.
#![tactic(auto)]

mod error;
mod number;
mod reader;
mod rows;
mod source;
mod splitter;
#[cfg(test)]
mod tests;
mod text;
mod write;

pub use error::{CsvError, Failure, Malformed, Result, told};
pub use number::{compare, float, is_digits, ordered, whole};
pub use reader::Reader;
pub use rows::Rows;
pub use source::Source;
pub use splitter::{Dialect, LONGEST_ROW, MOST_FIELDS, Splitter};
pub use text::{grouped, shown, visible};
pub use write::write_row;
