//! Texts split into fields, whatever the pieces, and fields written back.
use crate::{CsvError, Dialect, Malformed, Rows, Splitter, write_row};
use std::alloc::Global;
use std::test::Fail;

const COMMAS: Dialect = Dialect {
    delimiter: b',',
    quote: Some(b'"'),
};

/// Three rows of two, two and one field: quotes, a delimiter and line ends in a field, CRLF, empty
/// fields, and no line end at the end.
const TEXT: &[u8] = b"a,\"b,\r\n\"\"c\"\"\"\r\n,\"\"\nlast";

/// The fields of the text, each before a bar.
const FIELDS: &[u8] = b"a|b,\r\n\"c\"|||last|";

/// Feeds a piece of a text to its end.
fn feed_all(splitter: &mut Splitter, piece: &[u8], rows: &mut Rows) -> Result<(), CsvError> {
    let mut rest = piece;
    for _ in 0..piece.len() {
        let (taken, _) = splitter.feed(rest, rows)?;
        rest = rest.get(taken..).unwrap_or(&[]);
    }
    Ok(())
}

/// Returns the rows of a text that comes in pieces of `size` bytes.
fn split(alloc: Global, text: &[u8], size: usize) -> Result<Rows, CsvError> {
    let mut rows = Rows::new(alloc, 2)?;
    let mut splitter = Splitter::new(COMMAS);
    for piece in text.chunks(size.max(1)) {
        feed_all(&mut splitter, piece, &mut rows)?;
    }
    splitter.finish(&mut rows)?;
    drop(splitter);
    Ok(rows)
}

/// Returns all fields, each before a bar.
fn listed(alloc: Global, rows: &Rows) -> Result<Vec<u8>, CsvError> {
    let mut listed = Vec::new(alloc);
    for field in 0..rows.fields() {
        listed.extend_from_slice(rows.nth_field(field))?;
        listed.push(b'|')?;
    }
    Ok(listed)
}

/// Returns the number of rows and their fields; None after an error.
fn fields(alloc: Global, size: usize) -> Option<(usize, Vec<u8>)> {
    let rows = split(alloc, TEXT, size).ok()?;
    let fields = listed(alloc, &rows).ok();
    let count = rows.len();
    drop(rows);
    Some((count, fields?))
}

#[test]
fn pieces_make_no_difference(rt: HostRuntime) -> Result<(), Fail> {
    for size in 1..8usize {
        let (count, found) = fields(rt.alloc(), size).ok_or("fields")?;
        assert_eq!(rt; count, 3);
        assert_eq!(rt; found.as_slice(), FIELDS);
        drop(found);
    }
    Ok(())
}

/// Returns the line, the field and the reason of a text's error.
fn wrong(alloc: Global, text: &[u8]) -> Option<(u64, usize, Malformed)> {
    match split(alloc, text, 100) {
        Err(CsvError::Malformed { line, field, what }) => Some((line, field, what)),
        other => {
            drop(other);
            None
        }
    }
}

#[test]
fn errors_name_their_line_and_field(rt: HostRuntime) {
    let alloc = rt.alloc();
    let unclosed = wrong(alloc, b"a\nb,\"c\nd");
    assert!(rt; unclosed == Some((2, 1, Malformed::Unclosed)));
    let after = wrong(alloc, b"\"a\"b");
    assert!(rt; after == Some((1, 0, Malformed::AfterQuote(b'b'))));
    let alone = wrong(alloc, b"a\rb");
    assert!(rt; alone == Some((1, 0, Malformed::CarriageReturn)));
    assert!(rt; wrong(alloc, b"a\"b\n").is_none());
}

#[test]
fn fields_are_quoted_where_they_need_it(rt: HostRuntime) -> Result<(), Fail> {
    let mut out = Vec::new(rt.alloc());
    let fields: [&[u8]; 5] = [b"a", b"b,c", b"d\"e", b"", &[0xFF, 0xFE]];
    write_row(&mut out, COMMAS, &fields)?;
    let wanted = b"a,\"b,c\",\"d\"\"e\",,\"\xFF\xFE\"\n".as_slice();
    assert_eq!(rt; out.as_slice(), wanted);
    drop(out);
    Ok(())
}
