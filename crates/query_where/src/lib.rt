//! Conditions and lists of answers or columns, read from the command line.
//!
//! [`parse_condition`] parses the condition of `--where` into steps in the order in which they are
//! computed, [`selection`] the answers of `--select`, and [`column_names`] the names of
//! `--columns`. Columns are still names here.
#![tactic(auto)]

mod condition;
mod parse;
mod select;
#[cfg(test)]
mod tests;
mod token;
mod words;

pub use condition::{Condition, Literal, Name, Operand, Sign, Step};
pub use parse::parse_condition;
pub use select::{Aggregate, Answer, column_names, selection};
