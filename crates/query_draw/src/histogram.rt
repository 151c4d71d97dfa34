//! The distribution of a column's values.
use crate::edges::{floats, label, wholes};
use query_csv::{Result, grouped, ordered};
use query_engine::{Batch, made};
use query_table::Range;
use std::alloc::{AllocError, Global};
use vortex_buffer::{BitBuffer, Comparison, compared};

/// The number of a column's values in each bin, among the kept rows.
#[derive(Drop)]
pub struct Histogram {
    column: usize,
    /// The number at which each bin begins, as a text and as a key of the column's values.
    labels: Vec<String>,
    keys: Vec<i64>,
    /// The number of values at each edge or above it; for the first edge, all values.
    above: Vec<u64>,
}

impl Histogram {
    /// Returns the histogram of a column whose numbers are in a range, without values so far.
    pub fn new(
        alloc: Global,
        column: usize,
        range: Range,
    ) -> std::result::Result<Histogram, AllocError> {
        let (labels, keys) = edges(alloc, range)?;
        let above = Vec::from_elem(alloc, 0, keys.len())?;
        Ok(Histogram {
            column,
            labels,
            keys,
            above,
        })
    }

    /// Returns the column.
    pub fn column(&self) -> usize {
        self.column
    }

    /// Returns the first bin that has values, and the one after the last that has values.
    pub fn bins(&self) -> (usize, usize) {
        let mut first = None;
        let mut end = 0usize;
        for bin in 0..self.keys.len() {
            if self.count(bin) > 0 {
                first = Some(first.unwrap_or(bin));
                end = bin.saturating_add(1);
            }
        }
        (first.unwrap_or(0), end)
    }

    /// Returns the number of values in a bin.
    pub fn count(&self, bin: usize) -> u64 {
        let above = self.above.get(bin).copied().unwrap_or(0);
        let next = self.above.get(bin.saturating_add(1)).copied().unwrap_or(0);
        above.saturating_sub(next)
    }

    /// Returns the edge at which a bin begins, as text.
    pub fn label(&self, bin: usize) -> &str {
        match self.labels.get(bin) {
            Some(label) => label.as_str(),
            None => "",
        }
    }

    /// Returns the greatest number of values of a bin.
    pub fn most(&self) -> u64 {
        let mut most = 0;
        for bin in 0..self.keys.len() {
            most = self.count(bin).max(most);
        }
        most
    }

    /// Returns the length of the longest edge text, among the bins from the first with values to
    /// the last.
    pub fn longest(&self) -> usize {
        let (first, end) = self.bins();
        let mut longest = 0;
        for bin in first..end {
            longest = self.label(bin).len().max(longest);
        }
        longest
    }

    /// Returns a bin as a line with a bar; the longest bar of the histogram has `width` characters.
    pub fn line(
        &self,
        alloc: Global,
        bin: usize,
        longest: usize,
        most: u64,
        width: u64,
    ) -> std::result::Result<String, AllocError> {
        let mut line = String::new(alloc);
        for _ in self.label(bin).len()..longest {
            line.push(' ')?;
        }
        line.push_str(self.label(bin))?;
        line.push_str(" │")?;
        add_bar(&mut line, self.count(bin), most, width)?;
        line.push(' ')?;
        let count = grouped(alloc, self.count(bin))?;
        line.push_str(count.as_str())?;
        drop(count);
        Ok(line)
    }

    /// Takes the next batch. `kept` has a bit per row, which is set if the row is kept.
    pub fn take(&mut self, alloc: Global, batch: &Batch<'_>, kept: &BitBuffer) -> Result<()> {
        let column = batch.column(self.column)?;
        let Some(keys) = column.keys() else {
            return Ok(());
        };
        let mask = made(alloc, kept & column.valid())?;
        let counted = self.add(alloc, keys.as_slice(), &mask);
        drop(mask);
        counted
    }

    /// Adds to each edge the number of selected numbers at or above it; to the first edge, all of
    /// them.
    fn add(&mut self, alloc: Global, numbers: &[i64], mask: &BitBuffer) -> Result<()> {
        for (bin, edge) in self.keys.iter().enumerate() {
            let count = if bin == 0 {
                mask.true_count()
            } else {
                count_from(alloc, numbers, *edge, mask)?
            };
            if let Some(above) = self.above.get_mut(bin) {
                *above = above.saturating_add(count as u64);
            }
        }
        Ok(())
    }
}

/// Returns how many of the numbers that a mask selects are at an edge or above.
fn count_from(alloc: Global, numbers: &[i64], edge: i64, mask: &BitBuffer) -> Result<usize> {
    let above = compared(alloc, numbers, Comparison::GreaterOrEqual, edge, None);
    let above = made(alloc, above)?;
    let count = above.try_and_count(mask);
    drop(above);
    made(alloc, count)
}

/// Returns the number at which each bin begins, as a text and as a key.
fn edges(alloc: Global, range: Range) -> std::result::Result<(Vec<String>, Vec<i64>), AllocError> {
    let mut labels = Vec::new(alloc);
    match range {
        Range::Whole {
            least,
            greatest,
            mean,
        } => {
            let edges = wholes(alloc, least, greatest, mean)?;
            for edge in edges.iter() {
                let label = format!(in alloc; "{}", *edge)?;
                labels.push(label)?;
            }
            Ok((labels, edges))
        }
        Range::Float {
            least,
            greatest,
            mean,
        } => {
            let mut keys = Vec::new(alloc);
            let edges = floats(alloc, least, greatest, mean)?;
            for edge in edges.iter() {
                let label = label(alloc, *edge)?;
                labels.push(label)?;
                keys.push(ordered(*edge))?;
            }
            drop(edges);
            Ok((labels, keys))
        }
    }
}

/// The parts of a character that end a bar, in eighths.
const PARTS: &[&str] = &["", "▏", "▎", "▍", "▌", "▋", "▊", "▉"];

/// Adds a bar in eighths of a character: at least one of them for a bin with a value.
fn add_bar(
    line: &mut String,
    count: u64,
    most: u64,
    width: u64,
) -> std::result::Result<(), AllocError> {
    let parts = u128::from(count)
        .wrapping_mul(u128::from(width))
        .wrapping_mul(8);
    let most = u128::from(most);
    let eighths = parts
        .wrapping_add(most.saturating_sub(1))
        .checked_div(most)
        .unwrap_or(0);
    let eighths = u64::try_from(eighths).unwrap_or(0);
    for _ in 0..eighths / 8 {
        line.push('█')?;
    }
    let part = PARTS.get((eighths % 8) as usize).copied().unwrap_or("");
    line.push_str(part)
}
