//! Answers about the kept rows: counts, sums, means, minima and maxima.
use crate::batch::Batch;
use crate::column::Column;
use crate::failures::made;
use crate::total::{Floats, Wholes};
use query_csv::{Result, Rows};
use query_table::Range;
use query_where::Aggregate;
use std::alloc::{AllocError, Global};
use vortex_buffer::{BitBuffer, Buffer, Filter};

/// The answers about one column, over the kept rows that are not null there.
#[derive(Drop)]
pub struct Summary {
    column: usize,
    count: u64,
    /// The total of a column of whole numbers; None before the first number.
    wholes: Option<Wholes>,
    /// The total of a column of floats.
    floats: Option<Floats>,
    /// The least and the greatest text of a column of texts.
    texts: Option<(Vec<u8>, Vec<u8>)>,
}

impl Summary {
    /// Returns the summary of no rows.
    pub fn new(column: usize) -> Summary {
        Summary {
            column,
            count: 0,
            wholes: None,
            floats: None,
            texts: None,
        }
    }

    /// Returns the column.
    pub fn column(&self) -> usize {
        self.column
    }

    /// Returns the number of values.
    pub fn count(&self) -> u64 {
        self.count
    }

    /// Returns one answer as text. It is empty for a sum or a mean of texts, and, except for a
    /// count, if there is no value.
    pub fn answer(
        &self,
        alloc: Global,
        aggregate: Aggregate,
    ) -> std::result::Result<Vec<u8>, AllocError> {
        match aggregate {
            Aggregate::Count => bytes(format!(in alloc; "{}", self.count)),
            Aggregate::Sum => self.sum(alloc),
            Aggregate::Min => self.least(alloc),
            Aggregate::Max => self.greatest(alloc),
            Aggregate::Avg => self.mean(alloc),
        }
    }

    fn mean(&self, alloc: Global) -> std::result::Result<Vec<u8>, AllocError> {
        match self.range(alloc)? {
            Some(
                Range::Whole {
                    least: _,
                    greatest: _,
                    mean,
                },
            ) => float_text(alloc, mean),
            Some(
                Range::Float {
                    least: _,
                    greatest: _,
                    mean,
                },
            ) => float_text(alloc, mean),
            None => Ok(Vec::new(alloc)),
        }
    }

    fn sum(&self, alloc: Global) -> std::result::Result<Vec<u8>, AllocError> {
        if let Some(wholes) = self.wholes {
            return bytes(format!(in alloc; "{}", wholes.sum));
        }
        match self.floats {
            Some(floats) => float_text(alloc, floats.sum.value()),
            None => Ok(Vec::new(alloc)),
        }
    }

    fn least(&self, alloc: Global) -> std::result::Result<Vec<u8>, AllocError> {
        if let Some(wholes) = self.wholes {
            return bytes(format!(in alloc; "{}", wholes.least));
        }
        if let Some(floats) = self.floats {
            return float_text(alloc, floats.least);
        }
        match &self.texts {
            Some((least, _)) => least.clone(),
            None => Ok(Vec::new(alloc)),
        }
    }

    fn greatest(&self, alloc: Global) -> std::result::Result<Vec<u8>, AllocError> {
        if let Some(wholes) = self.wholes {
            return bytes(format!(in alloc; "{}", wholes.greatest));
        }
        if let Some(floats) = self.floats {
            return float_text(alloc, floats.greatest);
        }
        match &self.texts {
            Some((_, greatest)) => greatest.clone(),
            None => Ok(Vec::new(alloc)),
        }
    }

    /// Returns the range of the values; None if there are none or they are texts.
    pub fn range(&self, alloc: Global) -> std::result::Result<Option<Range>, AllocError> {
        if let Some(wholes) = self.wholes {
            return Ok(Some(wholes.range(alloc, self.count)?));
        }
        match self.floats {
            Some(floats) => Ok(Some(floats.range(self.count))),
            None => Ok(None),
        }
    }

    /// Takes the next batch. `kept` has a bit per row, which is set if the row is kept.
    pub fn take(&mut self, alloc: Global, batch: &Batch<'_>, kept: &BitBuffer) -> Result<()> {
        let column = batch.column(self.column)?;
        let mask = made(alloc, kept & column.valid())?;
        self.count = self.count.saturating_add(mask.true_count() as u64);
        let added = self.add(alloc, batch.rows, column, &mask);
        drop(mask);
        added
    }

    fn add(&mut self, alloc: Global, rows: &Rows, column: &Column, mask: &BitBuffer) -> Result<()> {
        match column.keys() {
            None => self.add_texts(alloc, rows, mask),
            Some(_) if column.has_floats() => {
                self.add_floats(column.floats(), mask);
                Ok(())
            }
            Some(keys) => self.add_wholes(alloc, keys, mask),
        }
    }

    fn add_wholes(&mut self, alloc: Global, numbers: &Buffer<i64>, mask: &BitBuffer) -> Result<()> {
        let kept = made(alloc, numbers.filtered(mask.as_view()))?;
        let mut total = self.wholes;
        for number in kept.as_slice() {
            total = Some(match total {
                Some(total) => total.plus(*number),
                None => Wholes::of(*number),
            });
        }
        self.wholes = total;
        drop(kept);
        Ok(())
    }

    /// Sums the floats of a batch separately, and adds that sum to the total.
    fn add_floats(&mut self, numbers: &[f64], mask: &BitBuffer) {
        let mut total = None;
        for row in mask.set_indices() {
            let number = numbers.get(row).copied().unwrap_or(0.0);
            total = Some(plus(total, number));
        }
        self.floats = match (self.floats, total) {
            (Some(before), Some(total)) => Some(before.joined(total)),
            (before, None) => before,
            (None, total) => total,
        };
    }

    fn add_texts(&mut self, alloc: Global, rows: &Rows, mask: &BitBuffer) -> Result<()> {
        for row in mask.set_indices() {
            self.add_text(alloc, rows.field(row, self.column))?;
        }
        Ok(())
    }

    fn add_text(&mut self, alloc: Global, text: &[u8]) -> Result<()> {
        match &mut self.texts {
            Some((least, greatest)) => {
                if text < least.as_slice() {
                    replace(least, text)?;
                } else if text > greatest.as_slice() {
                    replace(greatest, text)?;
                }
            }
            None => {
                let least = Vec::from_slice(alloc, text)?;
                let greatest = Vec::from_slice(alloc, text)?;
                drop(std::mem::replace(&mut self.texts, Some((least, greatest))));
            }
        }
        Ok(())
    }
}

fn plus(total: Option<Floats>, number: f64) -> Floats {
    match total {
        Some(total) => total.plus(number),
        None => Floats::of(number),
    }
}

fn replace(bytes: &mut Vec<u8>, text: &[u8]) -> std::result::Result<(), AllocError> {
    bytes.clear();
    bytes.extend_from_slice(text)
}

fn bytes(
    text: std::result::Result<String, AllocError>,
) -> std::result::Result<Vec<u8>, AllocError> {
    Ok(text?.into_bytes())
}

/// Returns a float in the fewest digits that parse to the same float, with a point or an exponent.
fn float_text(alloc: Global, number: f64) -> std::result::Result<Vec<u8>, AllocError> {
    bytes(format!(in alloc; "{number:?}"))
}
