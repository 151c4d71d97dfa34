//! The rows of an input.
use crate::error::{CsvError, Malformed};
use crate::rows::Rows;
use crate::splitter::{Dialect, Splitter};
use std::alloc::Global;
use std::io::{self, Read};

/// The number of bytes that are read at once.
const BUFFER: usize = 65_536;

/// The first bytes of some files in UTF-8.
pub const BYTE_ORDER_MARK: &[u8] = &[0xEF, 0xBB, 0xBF];

/// A reader of the rows of an input.
#[derive(Drop)]
pub struct Reader<R: Read + Drop> {
    source: R,
    buffer: Vec<u8>,
    /// The start of the bytes in the buffer that are read and not yet split.
    at: usize,
    /// The end of those bytes.
    end: usize,
    splitter: Splitter,
}

impl<R: Read + Drop> Reader<R> {
    /// Returns a reader at the first row. A byte-order mark before it is skipped.
    ///
    /// Fails if the input can't be read or begins as UTF-16, or if memory runs out. Allocates one
    /// buffer, whose size doesn't depend on the input.
    pub fn new(alloc: Global, source: R, dialect: Dialect) -> Result<Reader<R>, CsvError> {
        let buffer = Vec::from_elem(alloc, 0, BUFFER)?;
        let mut reader = Reader {
            source,
            buffer,
            at: 0,
            end: 0,
            splitter: Splitter::new(dialect),
        };
        reader.read_start()?;
        if starts_as_utf16(reader.unsplit()) {
            return Err(CsvError::Malformed {
                line: 1,
                field: 0,
                what: Malformed::Utf16,
            });
        }
        if reader.unsplit().starts_with(BYTE_ORDER_MARK) {
            reader.at = BYTE_ORDER_MARK.len();
        }
        Ok(reader)
    }

    /// Reads the next row and adds it to `rows`. Returns whether there is one.
    ///
    /// After an error the reader is of no further use, and `rows` may end in a part of a row.
    pub fn read_row(&mut self, rows: &mut Rows) -> Result<bool, CsvError> {
        for _ in 0..u64::MAX {
            if self.at >= self.end && self.fill()? == 0 {
                return self.splitter.finish(rows);
            }
            let Some(bytes) = self.buffer.as_slice().get(self.at..self.end) else {
                break;
            };
            let (taken, is_row) = self.splitter.feed(bytes, rows)?;
            self.at = self.at.saturating_add(taken);
            if is_row {
                return Ok(true);
            }
        }
        Ok(false)
    }

    /// Reads at least as many bytes as a byte-order mark has, unless the input ends before.
    fn read_start(&mut self) -> io::Result<()> {
        for _ in 0..BYTE_ORDER_MARK.len() {
            let space = self
                .buffer
                .as_mut_slice()
                .get_mut(self.end..)
                .unwrap_or(&mut []);
            let count = self.source.read(space)?;
            self.end = self.end.saturating_add(count);
            if count == 0 || self.end >= BYTE_ORDER_MARK.len() {
                break;
            }
        }
        Ok(())
    }

    /// Reads the next bytes into the buffer. Returns their number.
    fn fill(&mut self) -> io::Result<usize> {
        self.at = 0;
        self.end = self.source.read(self.buffer.as_mut_slice())?;
        Ok(self.end)
    }

    fn unsplit(&self) -> &[u8] {
        self.buffer.as_slice().get(self.at..self.end).unwrap_or(&[])
    }
}

/// Returns whether bytes begin with the byte-order mark of UTF-16, in either byte order.
pub fn starts_as_utf16(start: &[u8]) -> bool {
    matches!(start, [0xFE, 0xFF, ..] | [0xFF, 0xFE, ..])
}
