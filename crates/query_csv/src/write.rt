//! Rows written as CSV.
use crate::reader::{BYTE_ORDER_MARK, starts_as_utf16};
use crate::splitter::Dialect;
use std::io::{self, Write};

/// Writes a row of fields and a line feed. Fields are quoted where the dialect needs it.
///
/// Fails if `out` can't be written. A part of the row may then be written.
pub fn write_row<'a, W: Write>(
    out: &mut W,
    dialect: Dialect,
    fields: &[&'a [u8]],
) -> io::Result<()> {
    for (place, field) in fields.iter().enumerate() {
        if place > 0 {
            out.write_all(&[dialect.delimiter])?;
        }
        write_field(out, dialect, *field)?;
    }
    out.write_all(b"\n")
}

fn write_field<W: Write>(out: &mut W, dialect: Dialect, field: &[u8]) -> io::Result<()> {
    match dialect.quote {
        Some(quote) if needs_quotes(field, dialect.delimiter, quote) => {
            write_quoted(out, quote, field)
        }
        _ => out.write_all(field),
    }
}

/// Writes a field between quotes, with each quote in it doubled.
fn write_quoted<W: Write>(out: &mut W, quote: u8, field: &[u8]) -> io::Result<()> {
    out.write_all(&[quote])?;
    for byte in field {
        if *byte == quote {
            out.write_all(&[quote])?;
        }
        out.write_all(&[*byte])?;
    }
    out.write_all(&[quote])
}

/// Returns whether a field needs quotes to be read back unchanged. At the beginning of a file a
/// byte-order mark would be skipped, and one of UTF-16 would be an error.
fn needs_quotes(field: &[u8], delimiter: u8, quote: u8) -> bool {
    if field.starts_with(BYTE_ORDER_MARK) || starts_as_utf16(field) {
        return true;
    }
    for byte in field {
        if *byte == delimiter || *byte == quote || *byte == b'\n' || *byte == b'\r' {
            return true;
        }
    }
    false
}
