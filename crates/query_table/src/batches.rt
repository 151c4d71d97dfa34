//! The rows of a file by batches.
use crate::table::Table;
use query_csv::{Failure, Reader, Result, Rows, told};
use std::alloc::{AllocError, Global};
use std::io::Read;

/// The most rows of a batch.
const BATCH: usize = 65_536;

/// A batch ends with the row that brings it to this many bytes, or to [`BATCH_FIELDS`] fields.
const BATCH_BYTES: usize = 8_388_608;

const BATCH_FIELDS: usize = 1_048_576;

/// The rows of a file by batches, of which one is in memory at a time.
#[derive(Drop)]
pub struct Batches<F: Read + Drop> {
    reader: Reader<F>,
    rows: Rows,
}

impl<F: Read + Drop> Batches<F> {
    /// Returns the batches of a reader, whose rows have the width of `rows`.
    pub fn new(reader: Reader<F>, rows: Rows) -> Batches<F> {
        Batches { reader, rows }
    }

    /// Returns the batch that was read last.
    pub fn rows(&self) -> &Rows {
        &self.rows
    }

    /// Reads the next batch of a table's rows. Returns whether there is one. Skips empty lines, and
    /// lines of one empty quoted field; in a table of one column both are nulls instead.
    ///
    /// Fails if the file can't be read, isn't CSV, or a row has more fields than the table has
    /// columns, or fewer unless rows may be short.
    pub fn next_batch(&mut self, alloc: Global, table: &Table) -> Result<bool> {
        self.rows.clear();
        for _ in 0..u64::MAX {
            if self.is_full() || !self.next_row(alloc, table)? {
                break;
            }
        }
        Ok(!self.rows.is_empty())
    }

    fn is_full(&self) -> bool {
        self.rows.len() >= BATCH
            || self.rows.bytes() >= BATCH_BYTES
            || self.rows.fields() >= BATCH_FIELDS
    }

    fn next_row(&mut self, alloc: Global, table: &Table) -> Result<bool> {
        let (fields, bytes) = (self.rows.fields(), self.rows.bytes());
        let read = self.reader.read_row(&mut self.rows);
        let has_row = table.checked(read)?;
        let given = self.rows.fields().saturating_sub(fields);
        let wanted = table.width();
        if !has_row || given == wanted {
            return Ok(has_row);
        }
        if given == 1 && self.rows.bytes() == bytes {
            self.rows.pop_blank();
        } else if given < wanted && table.format().has_short_rows {
            self.add_nulls(wanted.saturating_sub(given))?;
        } else {
            return Err(self.wrong_width(alloc, table, given));
        }
        Ok(true)
    }

    /// Adds empty fields to the last row.
    fn add_nulls(&mut self, count: usize) -> Result<()> {
        for _ in 0..count {
            self.rows.end_field()?;
        }
        Ok(())
    }

    fn wrong_width(&self, alloc: Global, table: &Table, given: usize) -> Failure {
        told(width_text(alloc, table, self.rows.last_line(), given))
    }
}

fn width_text(
    alloc: Global,
    table: &Table,
    line: u64,
    given: usize,
) -> std::result::Result<String, AllocError> {
    let (path, wanted) = (table.path(), table.width());
    let fields = if given == 1 { "field" } else { "fields" };
    let are = if wanted == 1 { "is" } else { "are" };
    let hint = if given < wanted {
        "; --short-rows allows for missing ones"
    } else {
        ""
    };
    let listed = table.listed()?;
    let text = format!(in alloc;
        "{path}:{line}: {given} {fields}; {wanted} {are} wanted: {listed}{hint}"
    );
    drop(listed);
    text
}
