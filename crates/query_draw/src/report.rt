//! The default output: the columns, which rows are kept, and a histogram.
use crate::histogram::Histogram;
use crate::strip::Strip;
use crate::texts::{pad, trim_end, width};
use query_csv::{grouped, shown};
use query_engine::Summary;
use query_table::{Survey, Table};
use query_where::Aggregate;
use std::alloc::{AllocError, Global};
use std::num::nearest_u64_to_f64;

/// The number of characters of a text that a table shows.
const CELL: usize = 24;

/// The number of characters of a histogram's longest bar.
const BAR: u64 = 48;

/// The number of cells in a row of the table.
const CELLS: usize = 6;

const HEAD: &[&str] = &["column", "type", "nulls", "least", "greatest", "sum"];

type Text = std::result::Result<String, AllocError>;

type Added = std::result::Result<(), AllocError>;

/// A row with its fields.
#[derive(Drop)]
pub struct Row {
    /// Its number, from 1 on.
    pub number: u64,
    /// The line of the file in which it begins.
    pub line: u64,
    /// Its fields.
    pub fields: Vec<Vec<u8>>,
}

/// The subject of a report.
#[derive(Clone, Copy)]
pub struct Report<'a> {
    /// The memory for texts.
    pub alloc: Global,
    /// The table.
    pub table: &'a Table,
    /// The types of its columns.
    pub survey: &'a Survey,
    /// The condition, if there is one.
    pub condition: Option<&'a str>,
    /// The number of rows that are kept.
    pub kept: u64,
}

impl<'a> Report<'a> {
    /// Returns the first line: the file, and the text of [`Report::counts`].
    pub fn title(&self) -> Text {
        let alloc = self.alloc;
        let file = shown(alloc, self.table.path().as_bytes(), 200)?;
        let counts = self.counts()?;
        let title = format!(in alloc; "{file}: {counts}");
        drop((file, counts));
        title
    }

    /// Returns the name of the file without its folder.
    pub fn base(&self) -> Text {
        let path = self.table.path().as_bytes();
        let base = path.get(base_start(path)..).unwrap_or(path);
        shown(self.alloc, base, 200)
    }

    /// Returns how many rows and columns there are, and how many rows are kept if there is a
    /// condition.
    pub fn counts(&self) -> Text {
        let alloc = self.alloc;
        let rows = counted(alloc, self.survey.rows, "row")?;
        let columns = counted(alloc, self.table.width() as u64, "column")?;
        let kept = self.kept()?;
        let counts = format!(in alloc; "{rows}, {columns}{kept}");
        drop((rows, columns, kept));
        counts
    }

    fn kept(&self) -> Text {
        let alloc = self.alloc;
        if self.condition.is_none() {
            return Ok(String::new(alloc));
        }
        let rows = nearest_u64_to_f64(self.survey.rows.max(1));
        let share = 100.0 * nearest_u64_to_f64(self.kept) / rows;
        let kept = grouped(alloc, self.kept)?;
        let text = format!(in alloc; "; {kept} kept, {share:.1} %");
        drop(kept);
        text
    }

    /// Adds the title and the condition.
    pub fn add_head(&self, out: &mut String) -> Added {
        let title = self.title()?;
        out.push_str(title.as_str())?;
        drop(title);
        out.push('\n')?;
        if let Some(condition) = self.condition {
            let condition = shown(self.alloc, condition.as_bytes(), 1000)?;
            out.push_str("where ")?;
            out.push_str(condition.as_str())?;
            drop(condition);
            out.push('\n')?;
        }
        out.push('\n')
    }

    /// Adds the table of columns.
    pub fn add_table(&self, out: &mut String, summaries: &[Summary]) -> Added {
        let mut cells = Vec::new(self.alloc);
        for head in HEAD {
            let head = String::from_str(self.alloc, *head)?;
            cells.push(head)?;
        }
        for (column, summary) in summaries.iter().enumerate() {
            self.add_cells(&mut cells, column, summary)?;
        }
        let added = add_aligned(self.alloc, out, cells.as_slice());
        drop(cells);
        added
    }

    /// Adds the cells of a column.
    fn add_cells(&self, cells: &mut Vec<String>, column: usize, summary: &Summary) -> Added {
        let alloc = self.alloc;
        let name = shown(alloc, self.table.name(column).as_bytes(), CELL)?;
        cells.push(name)?;
        let kind = String::from_str(alloc, self.survey.kind(column).name())?;
        cells.push(kind)?;
        let nulls = grouped(alloc, self.kept.saturating_sub(summary.count()))?;
        cells.push(nulls)?;
        for aggregate in [Aggregate::Min, Aggregate::Max, Aggregate::Sum] {
            let answer = summary.answer(alloc, aggregate)?;
            let cell = shown(alloc, answer.as_slice(), CELL);
            drop(answer);
            cells.push(cell?)?;
        }
        Ok(())
    }

    /// Adds which rows are kept.
    pub fn add_strip(&self, out: &mut String, strip: &Strip) -> Added {
        let line = strip.line(self.alloc)?;
        out.push_str("\nkept rows, from · none to █ all\n")?;
        out.push_str(line.as_str())?;
        out.push_str("\nrow 1")?;
        let last = grouped(self.alloc, self.survey.rows)?;
        let given = width(last.as_str()).saturating_add("row 1row ".len());
        // Few rows make a strip that is shorter than its two labels.
        let most = width(line.as_str()).max(given.saturating_add(" ".len()));
        pad(out, given, most)?;
        out.push_str("row ")?;
        out.push_str(last.as_str())?;
        drop((line, last));
        out.push('\n')
    }

    /// Adds a histogram.
    pub fn add_histogram(&self, out: &mut String, histogram: &Histogram) -> Added {
        let name = self.table.name(histogram.column()).as_bytes();
        let name = shown(self.alloc, name, CELL)?;
        out.push('\n')?;
        out.push_str(name.as_str())?;
        drop(name);
        if self.condition.is_some() {
            out.push_str(" of the kept rows")?;
        }
        out.push_str(", by where each bin begins\n")?;
        let (first, end) = histogram.bins();
        let (longest, most) = (histogram.longest(), histogram.most());
        for bin in first..end {
            let line = histogram.line(self.alloc, bin, longest, most, BAR)?;
            out.push_str(line.as_str())?;
            drop(line);
            out.push('\n')?;
        }
        Ok(())
    }

    /// Returns one row, a field per line.
    pub fn row(&self, row: &Row) -> Text {
        let alloc = self.alloc;
        let number = grouped(alloc, row.number)?;
        let line = grouped(alloc, row.line)?;
        let mut out = format!(in alloc; "row {number}, from line {line} on\n")?;
        drop((number, line));
        let widest = self.widest_name()?;
        for (column, field) in row.fields.iter().enumerate() {
            let line = self.field(column, field.as_slice(), widest)?;
            out.push_str(line.as_str())?;
            drop(line);
            out.push('\n')?;
        }
        Ok(out)
    }

    fn field(&self, column: usize, field: &[u8], widest: usize) -> Text {
        let alloc = self.alloc;
        let name = shown(alloc, self.table.name(column).as_bytes(), CELL)?;
        let mut line = String::from_str(alloc, "  ")?;
        line.push_str(name.as_str())?;
        pad(&mut line, width(name.as_str()), widest)?;
        drop(name);
        line.push_str("  ")?;
        let field = shown(alloc, field, 1000)?;
        line.push_str(field.as_str())?;
        drop(field);
        trim_end(&mut line)?;
        Ok(line)
    }

    /// Returns the number of characters of the longest name, as it is shown.
    fn widest_name(&self) -> std::result::Result<usize, AllocError> {
        let mut widest = 0usize;
        for column in 0..self.table.width() {
            let name = shown(self.alloc, self.table.name(column).as_bytes(), CELL)?;
            widest = width(name.as_str()).max(widest);
            drop(name);
        }
        Ok(widest)
    }
}

/// Adds the rows of a table: the first two cells to the left, the others to the right.
fn add_aligned(alloc: Global, out: &mut String, cells: &[String]) -> Added {
    let widths = widths(alloc, cells)?;
    let mut line = String::new(alloc);
    for (place, cell) in cells.iter().enumerate() {
        let column = place % CELLS;
        let widest = widths.get(column).copied().unwrap_or(0);
        add_cell(&mut line, column, cell.as_str(), widest)?;
        if column == CELLS - 1 {
            trim_end(&mut line)?;
            out.push_str(line.as_str())?;
            out.push('\n')?;
            line.clear();
        }
    }
    drop((widths, line));
    Ok(())
}

fn add_cell(line: &mut String, column: usize, cell: &str, widest: usize) -> Added {
    if column > 0 {
        line.push_str("  ")?;
    }
    if column >= 2 {
        pad(line, width(cell), widest)?;
    }
    line.push_str(cell)?;
    if column < 2 {
        pad(line, width(cell), widest)?;
    }
    Ok(())
}

/// Returns the width of each column of a table.
fn widths(alloc: Global, cells: &[String]) -> std::result::Result<Vec<usize>, AllocError> {
    let mut widths = Vec::from_elem(alloc, 0usize, CELLS)?;
    for (place, cell) in cells.iter().enumerate() {
        if let Some(widest) = widths.get_mut(place % CELLS) {
            *widest = width(cell.as_str()).max(*widest);
        }
    }
    Ok(widths)
}

/// Returns the index of a file's name in its path, after the last slash.
fn base_start(path: &[u8]) -> usize {
    let mut start = 0usize;
    for (place, byte) in path.iter().enumerate() {
        if *byte == b'/' {
            start = place.saturating_add(1);
        }
    }
    start
}

fn counted(alloc: Global, number: u64, thing: &str) -> Text {
    let count = grouped(alloc, number)?;
    let end = if number == 1 { "" } else { "s" };
    let text = format!(in alloc; "{count} {thing}{end}");
    drop(count);
    text
}
