//! The outputs for the kept rows.
use crate::texts::print;
use query_csv::{Dialect, Result, Rows, write_row};
use query_draw::{Histogram, Row, Strip};
use query_engine::{Batch, Summary};
use query_table::file_failure;
use std::alloc::{AllocError, Global};
use std::io::Write;
use vortex_buffer::BitBuffer;

/// How rows are written.
#[derive(Clone, Copy)]
pub struct Written<'a> {
    /// The bytes between and around fields.
    pub dialect: Dialect,
    /// The columns that are written, in their order.
    pub columns: &'a [usize],
}

/// The outputs for the kept rows. They take one batch after the other.
#[derive(Drop)]
pub struct Outputs<F: Write + Drop> {
    /// The number of rows that are kept.
    pub count: u64,
    /// Which rows are kept, in the terminal and in a picture.
    pub strips: Vec<Strip>,
    /// The answers about columns.
    pub summaries: Vec<Summary>,
    /// The distribution of a column's values.
    pub histogram: Option<Histogram>,
    /// The number of kept rows before the requested row in the batches to come; None once the row
    /// is found, or if no row is requested.
    pub before: Option<u64>,
    /// The requested row, once it is found.
    pub found: Option<Row>,
    /// Whether the rows are printed.
    pub prints: bool,
    /// The file to which the rows are written, with its name.
    pub file: Option<(String, F)>,
}

impl<F: Write + Drop> Outputs<F> {
    /// Returns no outputs.
    pub fn none(alloc: Global) -> Outputs<F> {
        Outputs {
            count: 0,
            strips: Vec::new(alloc),
            summaries: Vec::new(alloc),
            histogram: None,
            before: None,
            found: None,
            prints: false,
            file: None,
        }
    }

    /// Marks the columns whose values are used.
    pub fn mark(&self, uses: &mut [bool]) {
        for summary in self.summaries.iter() {
            mark(uses, summary.column());
        }
        if let Some(histogram) = &self.histogram {
            mark(uses, histogram.column());
        }
    }

    /// Takes the next batch, with a bit per row that is kept.
    ///
    /// Fails if a file or standard output can't be written.
    pub fn take<R: Print + AllocGlobal>(
        &mut self,
        rt: &R,
        batch: &Batch<'_>,
        kept: &BitBuffer,
        written: Written<'_>,
    ) -> Result<()> {
        let alloc = rt.alloc();
        self.count = self.count.saturating_add(kept.true_count() as u64);
        for strip in self.strips.iter_mut() {
            strip.take(batch.before, kept);
        }
        for summary in self.summaries.iter_mut() {
            summary.take(alloc, batch, kept)?;
        }
        if let Some(histogram) = &mut self.histogram {
            histogram.take(alloc, batch, kept)?;
        }
        self.find(alloc, batch, kept)?;
        self.write(rt, batch.rows, kept, written)
    }

    /// Looks for the requested row in a batch.
    fn find(&mut self, alloc: Global, batch: &Batch<'_>, kept: &BitBuffer) -> Result<()> {
        let Some(before) = self.before else {
            return Ok(());
        };
        match kept.select(before as usize) {
            Some(row) => {
                let found = found(alloc, batch, row)?;
                drop(std::mem::replace(&mut self.found, Some(found)));
                self.before = None;
            }
            None => self.before = Some(before.saturating_sub(kept.true_count() as u64)),
        }
        Ok(())
    }

    /// Prints the rows that are kept, and writes them to the file.
    fn write<R: Print + AllocGlobal>(
        &mut self,
        rt: &R,
        rows: &Rows,
        kept: &BitBuffer,
        written: Written<'_>,
    ) -> Result<()> {
        if !self.prints && self.file.is_none() {
            return Ok(());
        }
        let text = rows_text(rt.alloc(), rows, kept, written)?;
        let written = self.write_text(rt, text.as_slice());
        drop(text);
        written
    }

    /// Prints a text if rows are printed, and writes it to the file if there is one.
    pub fn write_text<R: Print + AllocGlobal>(&mut self, rt: &R, text: &[u8]) -> Result<()> {
        if self.prints {
            print(rt, text)?;
        }
        let Some((path, file)) = &mut self.file else {
            return Ok(());
        };
        match file.write_all(text) {
            Ok(()) => Ok(()),
            Err(error) => Err(file_failure(rt.alloc(), path.as_str(), &error)),
        }
    }
}

fn mark(uses: &mut [bool], column: usize) {
    if let Some(is_used) = uses.get_mut(column) {
        *is_used = true;
    }
}

fn found(alloc: Global, batch: &Batch<'_>, row: usize) -> std::result::Result<Row, AllocError> {
    let mut fields = Vec::new(alloc);
    for column in 0..batch.rows.width() {
        let field = Vec::from_slice(alloc, batch.rows.field(row, column))?;
        fields.push(field)?;
    }
    Ok(Row {
        number: batch.before.saturating_add(row as u64).saturating_add(1),
        line: batch.rows.line(row),
        fields,
    })
}

/// Returns the kept rows as CSV.
fn rows_text(
    alloc: Global,
    rows: &Rows,
    kept: &BitBuffer,
    written: Written<'_>,
) -> Result<Vec<u8>> {
    let mut text = Vec::new(alloc);
    for row in kept.set_indices() {
        add_columns(alloc, &mut text, rows, row, written)?;
    }
    Ok(text)
}

/// Adds the written columns of one row.
fn add_columns(
    alloc: Global,
    text: &mut Vec<u8>,
    rows: &Rows,
    row: usize,
    written: Written<'_>,
) -> Result<()> {
    let mut fields = Vec::with_capacity(alloc, written.columns.len())?;
    for column in written.columns {
        fields.push(rows.field(row, *column))?;
    }
    add_row(text, written.dialect, fields.as_slice())?;
    drop(fields);
    Ok(())
}

/// Adds a row of fields as CSV to a text. Fails only if memory runs out.
pub fn add_row(text: &mut Vec<u8>, dialect: Dialect, fields: &[&[u8]]) -> Result<()> {
    match write_row(text, dialect, fields) {
        Ok(()) => Ok(()),
        Err(_) => Err(query_csv::Failure::Memory),
    }
}
