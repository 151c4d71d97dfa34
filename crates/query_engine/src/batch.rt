//! Some rows of the file, with the columns that are used.
use crate::column::Column;
use query_csv::{Failure, Result, Rows, told};
use query_table::{Survey, Table};
use std::alloc::Global;

/// Some rows of the file, with the columns that are used.
#[derive(Drop)]
pub struct Batch<'a> {
    /// The rows as texts.
    pub rows: &'a Rows,
    /// The number of rows before these.
    pub before: u64,
    alloc: Global,
    columns: Vec<Option<Column>>,
}

impl<'a> Batch<'a> {
    /// Reads the columns that `uses` marks, for these rows.
    ///
    /// Fails if a field isn't of its column's type, since the file has changed.
    pub fn read(
        alloc: Global,
        table: &Table,
        survey: &Survey,
        rows: &'a Rows,
        before: u64,
        uses: &[bool],
    ) -> Result<Batch<'a>> {
        let mut columns = Vec::with_capacity(alloc, uses.len())?;
        for (place, is_used) in uses.iter().enumerate() {
            let column = if *is_used {
                let kind = survey.kind(place);
                Some(Column::read(alloc, table, rows, place, kind)?)
            } else {
                None
            };
            columns.push(column)?;
        }
        Ok(Batch {
            rows,
            before,
            alloc,
            columns,
        })
    }

    /// Returns a column that the filter or an output uses; a failure if none has marked it.
    pub fn column(&self, place: usize) -> Result<&Column> {
        match self.columns.get(place) {
            Some(Some(column)) => Ok(column),
            _ => Err(self.unread()),
        }
    }

    fn unread(&self) -> Failure {
        told(String::from_str(self.alloc, "a column that is used isn't read"))
    }
}
