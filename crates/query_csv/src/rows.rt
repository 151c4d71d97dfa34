//! Rows of text fields.
use std::alloc::{AllocError, AllocFailed, Global};

/// Rows of a file, as the bytes of their fields one after the other.
#[derive(Drop)]
pub struct Rows {
    bytes: Vec<u8>,
    /// 0, and the end of each field in `bytes`.
    ends: Vec<usize>,
    /// The line of the file in which each row begins.
    lines: Vec<u64>,
    width: usize,
}

impl Rows {
    /// Returns an empty list of rows, for rows of `width` fields each.
    pub fn new(alloc: Global, width: usize) -> Result<Rows, AllocError> {
        Ok(Rows {
            bytes: Vec::new(alloc),
            ends: Vec::from_elem(alloc, 0, 1)?,
            lines: Vec::new(alloc),
            width,
        })
    }

    /// Removes all rows; the memory stays.
    pub fn clear(&mut self) {
        self.bytes.clear();
        self.ends.truncate(1);
        self.lines.clear();
    }

    /// Returns the number of rows.
    pub fn len(&self) -> usize {
        self.lines.len()
    }

    /// Returns whether there are none.
    pub fn is_empty(&self) -> bool {
        self.lines.is_empty()
    }

    /// Returns the number of fields of each row.
    pub fn width(&self) -> usize {
        self.width
    }

    /// Returns the number of bytes of all fields.
    pub fn bytes(&self) -> usize {
        self.bytes.len()
    }

    /// Returns the number of fields of all rows.
    pub fn fields(&self) -> usize {
        self.ends.len().saturating_sub(1)
    }

    /// Returns the line of the file in which a row begins, from 1 on; 0 behind the last row.
    pub fn line(&self, row: usize) -> u64 {
        self.lines.get(row).copied().unwrap_or(0)
    }

    /// Returns the line in which the last row begins; 0 if there is no row.
    pub fn last_line(&self) -> u64 {
        self.lines.last().copied().unwrap_or(0)
    }

    /// Returns one field; no bytes if it doesn't exist.
    pub fn field(&self, row: usize, column: usize) -> &[u8] {
        self.nth_field(row.saturating_mul(self.width).saturating_add(column))
    }

    /// Returns a field by its index among the fields of all rows; no bytes if it doesn't exist.
    pub fn nth_field(&self, field: usize) -> &[u8] {
        let start = self.ends.get(field).copied().unwrap_or(0);
        let end = self.ends.get(field.saturating_add(1)).copied().unwrap_or(0);
        self.bytes.as_slice().get(start..end).unwrap_or(&[])
    }

    /// Begins a row at a line of the file.
    pub fn begin_row(&mut self, line: u64) -> Result<(), AllocFailed<u64>> {
        self.lines.push(line)
    }

    /// Adds a byte to the field that is open.
    pub fn push(&mut self, byte: u8) -> Result<(), AllocFailed<u8>> {
        self.bytes.push(byte)
    }

    /// Ends the field that is open, and opens the next one.
    pub fn end_field(&mut self) -> Result<(), AllocFailed<usize>> {
        let end = self.bytes.len();
        self.ends.push(end)
    }

    /// Removes the last row, which has one field without a byte.
    pub fn pop_blank(&mut self) {
        drop(self.lines.pop());
        drop(self.ends.pop());
    }
}
