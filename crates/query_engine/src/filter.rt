//! A condition on the columns of a table, and the rows that it keeps.
use crate::batch::Batch;
use crate::column::Column;
use crate::failures::{made, packed};
use crate::resolve::Resolver;
use crate::truth::{Joint, Truth, holds, swapped};
use query_csv::{Failure, Result, Rows, Source, compare, told};
use query_table::{Survey, Table};
use query_where::Condition;
use std::alloc::Global;
use vortex_buffer::{BitBuffer, Buffer, Comparison, compared, try_compared_with};

/// A step of a condition whose columns are known by their indices.
#[derive(Drop)]
pub enum Test {
    /// A column of numbers and a number, by their keys.
    Number(usize, Comparison, i64),
    /// A column of texts and a text.
    Text(usize, Comparison, String),
    /// Two columns, both of numbers or both of texts.
    Columns(usize, Comparison, usize),
    /// A truth value where a column isn't null.
    Always(usize, bool),
    /// A column that is null.
    IsNull(usize),
    /// The negation of the last truth value.
    Not,
    /// The last two truth values, joined.
    Join(Joint),
}

/// A condition whose columns are known by their indices, as steps in the order in which they are
/// computed.
#[derive(Drop)]
pub struct RowFilter {
    tests: Vec<Test>,
}

impl RowFilter {
    /// Returns a condition for the columns of a table. `source` has its text.
    ///
    /// Fails at a name that isn't a column's, and where a comparison's sides are of types that
    /// don't compare.
    pub fn new(
        alloc: Global,
        condition: &Condition,
        table: &Table,
        survey: &Survey,
        source: Source<'_>,
    ) -> Result<RowFilter> {
        let resolver = Resolver {
            alloc,
            table,
            survey,
            source,
        };
        let mut tests = Vec::with_capacity(alloc, condition.steps.len())?;
        for step in condition.steps.iter() {
            let test = resolver.test(step)?;
            tests.push(test)?;
        }
        Ok(RowFilter { tests })
    }

    /// Marks the columns of the condition in `uses`.
    pub fn mark(&self, uses: &mut [bool]) {
        for test in self.tests.iter() {
            let (first, second) = test.columns();
            mark(uses, first);
            mark(uses, second);
        }
    }

    /// Returns the rows for which the condition is true, neither false nor null.
    pub fn kept(&self, alloc: Global, batch: &Batch<'_>) -> Result<BitBuffer> {
        let mut truths = Vec::new(alloc);
        for test in self.tests.iter() {
            let truth = test.applied(alloc, batch, &mut truths)?;
            truths.push(truth)?;
        }
        let truth = popped(alloc, &mut truths)?;
        drop(truths);
        truth.kept(alloc)
    }
}

fn mark(uses: &mut [bool], column: Option<usize>) {
    if let Some(column) = column {
        if let Some(is_used) = uses.get_mut(column) {
            *is_used = true;
        }
    }
}

/// Takes the last truth value. Each step has its operands before it, so there is one.
fn popped(alloc: Global, truths: &mut Vec<Truth>) -> Result<Truth> {
    match truths.pop() {
        Some(truth) => Ok(truth),
        None => Err(lacking(alloc)),
    }
}

fn lacking(alloc: Global) -> Failure {
    told(String::from_str(alloc, "a step of the condition lacks an operand"))
}

impl Test {
    /// Returns the columns that are compared.
    fn columns(&self) -> (Option<usize>, Option<usize>) {
        match self {
            Test::Number(column, _, _)
            | Test::Text(column, _, _)
            | Test::Always(column, _)
            | Test::IsNull(column) => (Some(*column), None),
            Test::Columns(left, _, right) => (Some(*left), Some(*right)),
            Test::Not | Test::Join(_) => (None, None),
        }
    }

    /// Returns the truth values of the step. Removes its operands, the last ones, from `truths`.
    fn applied(&self, alloc: Global, batch: &Batch<'_>, truths: &mut Vec<Truth>) -> Result<Truth> {
        match self {
            Test::Not => popped(alloc, truths)?.not(alloc),
            Test::Join(joint) => {
                let right = popped(alloc, truths)?;
                popped(alloc, truths)?.joined(alloc, *joint, right)
            }
            Test::IsNull(column) => nulls(alloc, batch, *column),
            Test::Columns(left, comparison, right) => {
                two(alloc, batch, *left, *comparison, *right)
            }
            Test::Number(column, _, _) | Test::Text(column, _, _) | Test::Always(column, _) => {
                let trues = self.compared(alloc, batch)?;
                valid_where(alloc, trues, batch.column(*column)?)
            }
        }
    }

    /// Returns which rows of a column pass the comparison with a number or a text. The bits of null
    /// rows are arbitrary.
    fn compared(&self, alloc: Global, batch: &Batch<'_>) -> Result<BitBuffer> {
        match self {
            Test::Number(column, comparison, key) => {
                numbers(alloc, batch.column(*column)?, *comparison, *key)
            }
            Test::Text(column, comparison, text) => {
                texts(alloc, batch.rows, *column, *comparison, text.as_bytes())
            }
            Test::Always(_, truth) => {
                made(alloc, BitBuffer::full(alloc, *truth, batch.rows.len()))
            }
            _ => Err(lacking(alloc)),
        }
    }
}

/// Returns truth values that are null where the column is.
fn valid_where(alloc: Global, trues: BitBuffer, column: &Column) -> Result<Truth> {
    match column.valid().clone() {
        Ok(valid) => Ok(Truth { trues, valid }),
        Err(error) => {
            drop(trues);
            made(alloc, Err(error))
        }
    }
}

fn nulls(alloc: Global, batch: &Batch<'_>, column: usize) -> Result<Truth> {
    let trues = made(alloc, !batch.column(column)?.valid())?;
    match BitBuffer::new_set(alloc, batch.rows.len()) {
        Ok(valid) => Ok(Truth { trues, valid }),
        Err(error) => {
            drop(trues);
            made(alloc, Err(error))
        }
    }
}

fn numbers(alloc: Global, column: &Column, comparison: Comparison, key: i64) -> Result<BitBuffer> {
    match column.keys() {
        Some(keys) => made(
            alloc,
            compared(alloc, keys.as_slice(), comparison, key, None),
        ),
        None => Err(lacking(alloc)),
    }
}

fn texts(
    alloc: Global,
    rows: &Rows,
    column: usize,
    comparison: Comparison,
    text: &[u8],
) -> Result<BitBuffer> {
    let mut bools = Vec::with_capacity(alloc, rows.len())?;
    for row in 0..rows.len() {
        bools.push(holds(comparison, rows.field(row, column).cmp(&text)))?;
    }
    packed(alloc, bools)
}

/// Returns the comparison of two columns: null where one of them is.
fn two(
    alloc: Global,
    batch: &Batch<'_>,
    left: usize,
    comparison: Comparison,
    right: usize,
) -> Result<Truth> {
    let (a, b) = (batch.column(left)?, batch.column(right)?);
    let trues = match (a.keys(), b.keys()) {
        (Some(x), Some(y)) => match (a.has_floats(), b.has_floats()) {
            (false, true) => mixed(alloc, x, comparison, b.floats()),
            (true, false) => mixed(alloc, y, swapped(comparison), a.floats()),
            _ => alike(alloc, x, comparison, y),
        }?,
        _ => text_columns(alloc, batch.rows, left, comparison, right)?,
    };
    match a.valid() & b.valid() {
        Ok(valid) => Ok(Truth { trues, valid }),
        Err(error) => {
            drop(trues);
            made(alloc, Err(error))
        }
    }
}

/// Returns the comparison of two columns of the same type of numbers.
fn alike(
    alloc: Global,
    left: &Buffer<i64>,
    comparison: Comparison,
    right: &Buffer<i64>,
) -> Result<BitBuffer> {
    let (left, right) = (left.as_slice(), right.as_slice());
    made(
        alloc,
        try_compared_with(alloc, left, comparison, right, None),
    )
}

/// Returns the comparison of whole numbers with floats.
fn mixed(
    alloc: Global,
    wholes: &Buffer<i64>,
    comparison: Comparison,
    floats: &[f64],
) -> Result<BitBuffer> {
    let mut bools = Vec::with_capacity(alloc, floats.len())?;
    for (whole, float) in wholes.as_slice().iter().zip(floats) {
        bools.push(holds(comparison, compare(*whole, *float)))?;
    }
    packed(alloc, bools)
}

fn text_columns(
    alloc: Global,
    rows: &Rows,
    left: usize,
    comparison: Comparison,
    right: usize,
) -> Result<BitBuffer> {
    let mut bools = Vec::with_capacity(alloc, rows.len())?;
    for row in 0..rows.len() {
        let right = rows.field(row, right);
        bools.push(holds(comparison, rows.field(row, left).cmp(&right)))?;
    }
    packed(alloc, bools)
}
