//! The columns of a batch, as values with their validity.
use crate::failures::{made, packed};
use query_csv::{Result, Rows, float, ordered, whole};
use query_table::{Kind, Table, wrong_field};
use std::alloc::Global;
use vortex_buffer::{BitBuffer, Buffer};

/// A column of a batch. An empty field is a null.
#[derive(Drop)]
pub struct Column {
    /// A number for each row; the numbers have the same order as the values. It is a whole number
    /// itself, the [`ordered`] number of a float, and 0 for a null. None if the column has texts.
    keys: Option<Buffer<i64>>,
    /// The floats, with 0 at nulls; none if the column has other values.
    floats: Vec<f64>,
    /// Which rows aren't null.
    valid: BitBuffer,
}

impl Column {
    /// Reads a column of some rows.
    ///
    /// Fails if a field isn't of the type, since the file has changed.
    pub fn read(
        alloc: Global,
        table: &Table,
        rows: &Rows,
        column: usize,
        kind: Kind,
    ) -> Result<Column> {
        let valid = valid(alloc, rows, column)?;
        match kind {
            Kind::Whole => Ok(Column {
                keys: Some(wholes(alloc, table, rows, column)?),
                floats: Vec::new(alloc),
                valid,
            }),
            Kind::Float => {
                let floats = floats(alloc, table, rows, column)?;
                Ok(Column {
                    keys: Some(keys(alloc, floats.as_slice())?),
                    floats,
                    valid,
                })
            }
            Kind::Text => Ok(Column {
                keys: None,
                floats: Vec::new(alloc),
                valid,
            }),
        }
    }

    /// Returns a number for each row; the numbers have the same order as the values. Returns None
    /// if the column has texts.
    pub fn keys(&self) -> Option<&Buffer<i64>> {
        self.keys.as_ref()
    }

    /// Returns the floats; none if the column has other values.
    pub fn floats(&self) -> &[f64] {
        self.floats.as_slice()
    }

    /// Returns whether the column has floats.
    pub fn has_floats(&self) -> bool {
        !self.floats.is_empty()
    }

    /// Returns which rows aren't null.
    pub fn valid(&self) -> &BitBuffer {
        &self.valid
    }
}

fn valid(alloc: Global, rows: &Rows, column: usize) -> Result<BitBuffer> {
    let mut bools = Vec::with_capacity(alloc, rows.len())?;
    for row in 0..rows.len() {
        bools.push(!rows.field(row, column).is_empty())?;
    }
    packed(alloc, bools)
}

fn wholes(alloc: Global, table: &Table, rows: &Rows, column: usize) -> Result<Buffer<i64>> {
    let mut numbers = Vec::with_capacity(alloc, rows.len())?;
    for row in 0..rows.len() {
        let field = rows.field(row, column);
        let number = if field.is_empty() {
            0
        } else if let Some(number) = whole(field) {
            number
        } else {
            return Err(wrong_field(alloc, table, rows, row, column, Kind::Whole));
        };
        numbers.push(number)?;
    }
    made(alloc, Buffer::from_vec(alloc, numbers))
}

fn floats(alloc: Global, table: &Table, rows: &Rows, column: usize) -> Result<Vec<f64>> {
    let mut numbers = Vec::with_capacity(alloc, rows.len())?;
    for row in 0..rows.len() {
        let field = rows.field(row, column);
        let number = if field.is_empty() {
            0.0
        } else if let Some(number) = float(field) {
            number
        } else {
            return Err(wrong_field(alloc, table, rows, row, column, Kind::Float));
        };
        numbers.push(number)?;
    }
    Ok(numbers)
}

fn keys(alloc: Global, floats: &[f64]) -> Result<Buffer<i64>> {
    let mut keys = Vec::with_capacity(alloc, floats.len())?;
    for number in floats {
        keys.push(ordered(*number))?;
    }
    made(alloc, Buffer::from_vec(alloc, keys))
}
