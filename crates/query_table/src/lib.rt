//! A CSV file as a table: the names and types of its columns, and its rows by batches.
#![tactic(auto)]

mod batches;
mod names;
mod survey;
mod table;

pub use batches::Batches;
pub use survey::{Column, Kind, Range, Survey, wrong_field};
pub use table::{Format, Table, file_failure};
