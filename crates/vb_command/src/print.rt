//! Printing of answers.
mod answer;
mod digit;
mod formatter;
mod lists;
mod printer;

pub use printer::Printer;
