//! Which rows are kept, as a strip of cells.
use std::alloc::{AllocError, Global};
use std::num::nearest_u64_to_f64;
use vortex_buffer::BitBuffer;

/// All rows of a file from left to right, as cells of about the same number of rows.
#[derive(Drop)]
pub struct Strip {
    rows: u64,
    /// The number of kept rows in each cell.
    kept: Vec<u64>,
}

impl Strip {
    /// Returns the strip of `rows` rows in at most `cells` cells, without kept rows so far.
    pub fn new(alloc: Global, rows: u64, cells: u64) -> Result<Strip, AllocError> {
        let cells = rows.min(cells) as usize;
        Ok(Strip {
            rows,
            kept: Vec::from_elem(alloc, 0, cells)?,
        })
    }

    /// Returns the number of cells.
    pub fn len(&self) -> usize {
        self.kept.len()
    }

    /// Returns whether there are no cells, because there are no rows.
    pub fn is_empty(&self) -> bool {
        self.kept.is_empty()
    }

    /// Returns the first row of a cell; for the cell after the last, the number of rows.
    fn start(&self, cell: usize) -> u64 {
        let before = u128::from(self.rows).wrapping_mul(cell as u128);
        let start = before.checked_div(self.kept.len() as u128).unwrap_or(0);
        u64::try_from(start).unwrap_or(u64::MAX)
    }

    /// Returns the share of kept rows in a cell, from 0 to 1.
    pub fn share(&self, cell: usize) -> f64 {
        let kept = self.kept.get(cell).copied().unwrap_or(0);
        let rows = self
            .start(cell.saturating_add(1))
            .saturating_sub(self.start(cell));
        nearest_u64_to_f64(kept) / nearest_u64_to_f64(rows)
    }

    /// Returns the strip as a line of characters: the darker, the more rows are kept.
    pub fn line(&self, alloc: Global) -> Result<String, AllocError> {
        let mut line = String::new(alloc);
        for cell in 0..self.kept.len() {
            line.push(shade(self.share(cell)))?;
        }
        Ok(line)
    }

    /// Takes the next batch: `kept` has a bit per row, which is set if the row is kept, and
    /// `before` is the number of rows before the batch.
    pub fn take(&mut self, before: u64, kept: &BitBuffer) {
        for cell in 0..self.kept.len() {
            let from = within(self.start(cell), before, kept.len());
            let to = within(self.start(cell.saturating_add(1)), before, kept.len());
            if from <= to && to <= kept.len() {
                let count = kept.count_range(from, to);
                self.add(cell, count as u64);
            }
        }
    }

    fn add(&mut self, cell: usize, count: u64) {
        if let Some(kept) = self.kept.get_mut(cell) {
            *kept = kept.saturating_add(count);
        }
    }
}

/// Returns the index of a row in a batch of `len` rows after `before` others: 0 if the row is
/// before the batch, `len` if it is after it.
fn within(row: u64, before: u64, len: usize) -> usize {
    row.saturating_sub(before).min(len as u64) as usize
}

/// Returns the character of a share: a dot if no row is kept, a full block if all are.
fn shade(share: f64) -> char {
    if share == 0.0 {
        '·'
    } else if share < 1.0 / 3.0 {
        '░'
    } else if share < 2.0 / 3.0 {
        '▒'
    } else if share < 1.0 {
        '▓'
    } else {
        '█'
    }
}
