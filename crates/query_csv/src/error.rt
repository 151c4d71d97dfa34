//! Errors, with their texts for the user.
use crate::splitter::{LONGEST_ROW, MOST_FIELDS};
use std::alloc::{AllocError, AllocFailed, Global};
use std::{fmt, io};

/// A failure of the program.
#[derive(Drop)]
pub enum Failure {
    /// A file, a line of it, or the command line is wrong: the text for the user.
    Told(String),
    /// Memory ran out.
    Memory,
    /// The reader of standard output has closed the pipe.
    Closed,
}

/// The result of a call, or a failure. A call may fail by `Memory` besides what its docstring says.
pub type Result<T> = std::result::Result<T, Failure>;

/// Returns the failure with this text, or `Memory` if memory ran out for the text.
pub fn told(text: std::result::Result<String, AllocError>) -> Failure {
    match text {
        Ok(text) => Failure::Told(text),
        Err(_) => Failure::Memory,
    }
}

impl From<AllocError> for Failure {
    fn from(_: AllocError) -> Failure {
        Failure::Memory
    }
}

impl<T: Drop> From<AllocFailed<T>> for Failure {
    fn from(_: AllocFailed<T>) -> Failure {
        Failure::Memory
    }
}

/// A failure to read a row.
#[derive(Drop)]
pub enum CsvError {
    /// The input can't be read.
    Io(io::Error),
    /// Memory ran out.
    Memory,
    /// The input isn't CSV.
    Malformed {
        /// The line of the file, from 1 on.
        line: u64,
        /// The field of the row, from 0 on.
        field: usize,
        /// The error.
        what: Malformed,
    },
}

impl From<io::Error> for CsvError {
    fn from(error: io::Error) -> CsvError {
        CsvError::Io(error)
    }
}

impl From<AllocError> for CsvError {
    fn from(_: AllocError) -> CsvError {
        CsvError::Memory
    }
}

impl<T: Drop> From<AllocFailed<T>> for CsvError {
    fn from(_: AllocFailed<T>) -> CsvError {
        CsvError::Memory
    }
}

/// A text that isn't CSV.
#[derive(Clone, Copy, PartialEq, Eq)]
pub enum Malformed {
    /// The file ends inside a quoted field.
    Unclosed,
    /// This byte, neither a delimiter nor a line end, follows a closing quote.
    AfterQuote(u8),
    /// A carriage return without a line feed is outside of quotes.
    CarriageReturn,
    /// A row is longer than [`LONGEST_ROW`], or has more than [`MOST_FIELDS`].
    TooLong,
    /// The file is encoded as UTF-16.
    Utf16,
}

impl Malformed {
    /// Returns the text for the user.
    pub fn message(self, alloc: Global) -> std::result::Result<String, AllocError> {
        match self {
            Malformed::Unclosed => {
                String::from_str(alloc, "the quote that begins this field is never closed")
            }
            Malformed::AfterQuote(byte) => after_quote(alloc, byte),
            Malformed::CarriageReturn => String::from_str(alloc, CARRIAGE_RETURN),
            Malformed::TooLong => too_long(alloc),
            Malformed::Utf16 => { String::from_str(alloc, "the file is UTF-16; UTF-8 is wanted") }
        }
    }
}

const CARRIAGE_RETURN: &str = "a carriage return without a line feed; lines end in LF or CRLF, \
    and other carriage returns are quoted";

fn too_long(alloc: Global) -> std::result::Result<String, AllocError> {
    format!(in alloc;
        "the row has more than {} MiB or {} fields; is a quote missing?",
        LONGEST_ROW >> 20,
        MOST_FIELDS
    )
}

fn after_quote(alloc: Global, byte: u8) -> std::result::Result<String, AllocError> {
    let escaped = Escaped(byte);
    format!(in alloc;
        "\"{escaped}\" follows the closing quote; a delimiter or the end of the line is wanted"
    )
}

/// A byte as a message shows it.
#[derive(Clone, Copy)]
struct Escaped(u8);

impl fmt::Display for Escaped {
    fn fmt<W: fmt::Write>(&self, f: &mut fmt::Formatter<W>) -> fmt::Result {
        let byte = self.0;
        match byte {
            b'\t' => f.write_str("\\t"),
            b'\\' => f.write_str("\\\\"),
            b'\'' => f.write_str("\\'"),
            b'"' => f.write_str("\\\""),
            b' '..=b'~' => write!(f, "{}", char::from(byte)),
            _ => write!(f, "\\x{byte:02x}"),
        }
    }
}
