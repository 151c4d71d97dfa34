//! A picture as SVG: the strip of rows that are kept, and the histogram of their values.
use crate::histogram::Histogram;
use crate::strip::Strip;
use crate::texts::fitted;
use query_csv::{grouped, visible};
use std::alloc::{AllocError, Global};
use std::num::{nearest_u64_to_f64, nearest_usize_to_f64, saturating_f64_to_usize};

const WIDTH: f64 = 760.0;

const MARGIN: f64 = 40.0;

/// The strip begins and ends at a whole unit, and so do its cells.
const STRIP_LEFT: usize = 40;

const STRIP_WIDTH: usize = 680;

const STRIP_TOP: f64 = 80.0;

const STRIP_HEIGHT: f64 = 36.0;

const CHART_TOP: f64 = 176.0;

const CHART_HEIGHT: f64 = 200.0;

const CHART_LEFT: f64 = 80.0;

/// The approximate width of a character on an axis.
const CHARACTER: f64 = 6.5;

/// The number of characters of the file's name that are shown.
const FILE: usize = 60;

/// The number of characters of the condition that are shown.
const CONDITION: usize = 90;

/// The number of characters of a column's name that are shown.
const NAME: usize = 30;

type Added = std::result::Result<(), AllocError>;

/// The contents of a picture.
#[derive(Clone, Copy)]
pub struct Picture<'a> {
    /// The memory for the text.
    pub alloc: Global,
    /// The title, which a viewer may show beside the picture.
    pub title: &'a str,
    /// The first line.
    pub file: &'a str,
    /// The second line.
    pub counts: &'a str,
    /// The third line, if there is a condition.
    pub condition: Option<&'a str>,
    /// Which rows are kept.
    pub strip: &'a Strip,
    /// The number of rows.
    pub rows: u64,
    /// The values of a column, with its name.
    pub histogram: Option<(&'a str, &'a Histogram)>,
}

impl<'a> Picture<'a> {
    /// Returns a picture as the text of an SVG file.
    pub fn svg(&self) -> std::result::Result<String, AllocError> {
        let mut out = String::new(self.alloc);
        self.add_head(&mut out)?;
        let file = fitted(self.alloc, self.file, FILE)?;
        let at = (MARGIN, 28.0);
        self.add_text(&mut out, at, "start", " font-size=\"16\"", file.as_str())?;
        drop(file);
        self.add_text(&mut out, (MARGIN, 48.0), "start", "", self.counts)?;
        if let Some(condition) = self.condition {
            self.add_condition(&mut out, condition)?;
        }
        self.add_strip(&mut out)?;
        if let Some((name, histogram)) = self.histogram {
            self.add_chart(&mut out, name, histogram)?;
        }
        out.push_str("</svg>\n")?;
        Ok(out)
    }

    fn add_head(&self, out: &mut String) -> Added {
        let height = if self.histogram.is_some() {
            CHART_TOP + CHART_HEIGHT + 56.0
        } else {
            CHART_TOP - 30.0
        };
        let title = escaped(self.alloc, self.title)?;
        writeln!(
            out,
            "<svg xmlns=\"http://www.w3.org/2000/svg\" viewBox=\"0 0 {WIDTH} {height}\" \
             role=\"img\" font-family=\"sans-serif\" font-size=\"11\" fill=\"#333\">"
        )?;
        writeln!(out, "<title>{title}</title>")?;
        drop(title);
        writeln!(
            out,
            "<rect width=\"{WIDTH}\" height=\"{height}\" fill=\"#fff\"/>"
        )
    }

    fn add_condition(&self, out: &mut String, condition: &str) -> Added {
        let whole = format!(in self.alloc; "where {condition}")?;
        let line = fitted(self.alloc, whole.as_str(), CONDITION);
        drop(whole);
        let line = line?;
        let added = self.add_text(out, (MARGIN, 66.0), "start", "", line.as_str());
        drop(line);
        added
    }

    /// Adds the strip of rows. Its cells begin at whole units, so that they aren't blurred: blurred
    /// cells would have visible gaps between them.
    fn add_strip(&self, out: &mut String) -> Added {
        writeln!(
            out,
            "<g shape-rendering=\"crispEdges\">\n<rect x=\"{STRIP_LEFT}\" y=\"{STRIP_TOP}\" \
             width=\"{STRIP_WIDTH}\" height=\"{STRIP_HEIGHT}\" fill=\"#eef2f5\"/>"
        )?;
        for cell in 0..self.strip.len() {
            add_cell(out, cell, self.strip)?;
        }
        out.push_str("</g>\n")?;
        self.add_legend(out)
    }

    /// Adds the legend below the strip.
    fn add_legend(&self, out: &mut String) -> Added {
        let below = STRIP_TOP + STRIP_HEIGHT + 16.0;
        self.add_text(out, (MARGIN, below), "start", "", "row 1")?;
        let middle = "the darker, the more rows are kept";
        self.add_text(out, (WIDTH / 2.0, below), "middle", "", middle)?;
        let rows = grouped(self.alloc, self.rows)?;
        let last = format!(in self.alloc; "row {rows}")?;
        self.add_text(out, (WIDTH - MARGIN, below), "end", "", last.as_str())?;
        drop((rows, last));
        Ok(())
    }

    fn add_chart(&self, out: &mut String, name: &str, histogram: &Histogram) -> Added {
        let most = histogram.most();
        let bottom = CHART_TOP + CHART_HEIGHT;
        self.add_bars(out, histogram, most.max(1))?;
        let right = WIDTH - MARGIN;
        writeln!(
            out,
            "<path d=\"M{CHART_LEFT} {CHART_TOP}V{bottom}H{right}\" stroke=\"#888\" \
             fill=\"none\"/>"
        )?;
        let left = CHART_LEFT - 6.0;
        let count = grouped(self.alloc, most)?;
        let end = (nearest_usize_to_f64(count.len()) * CHARACTER).max(left);
        self.add_text(out, (end, CHART_TOP + 10.0), "end", "", count.as_str())?;
        drop(count);
        self.add_text(out, (left, bottom), "end", "", "0")?;
        self.add_caption(out, name)
    }

    fn add_caption(&self, out: &mut String, name: &str) -> Added {
        let name = fitted(self.alloc, name, NAME)?;
        let of = if self.condition.is_some() {
            " of the kept rows"
        } else {
            ""
        };
        let caption = format!(in self.alloc;
            "{name}{of}: how many are in each bin, by where it begins"
        );
        drop(name);
        let caption = caption?;
        let at = (WIDTH / 2.0, CHART_TOP + CHART_HEIGHT + 38.0);
        let added = self.add_text(out, at, "middle", "", caption.as_str());
        drop(caption);
        added
    }

    /// Adds the bars, with their edges below as far as there is space for these.
    fn add_bars(&self, out: &mut String, histogram: &Histogram, most: u64) -> Added {
        let (first, end) = histogram.bins();
        let count = nearest_usize_to_f64(end.saturating_sub(first).max(1));
        let slot = (WIDTH - MARGIN - CHART_LEFT) / count;
        let label = nearest_usize_to_f64(histogram.longest().saturating_add(1)) * CHARACTER;
        // Edges are skipped by whole bins: a remainder of floats would call a C function that older
        // C libraries lack.
        let each = saturating_f64_to_usize((label / slot).ceil()).max(1);
        for bin in first..end {
            let place = bin.saturating_sub(first);
            let x = CHART_LEFT + nearest_usize_to_f64(place) * slot;
            self.add_bar(out, histogram, bin, (x, slot), most)?;
            if place % each == 0 && x + label / 2.0 <= WIDTH {
                let below = CHART_TOP + CHART_HEIGHT + 16.0;
                self.add_text(out, (x, below), "middle", "", histogram.label(bin))?;
            }
        }
        Ok(())
    }

    fn add_bar(
        &self,
        out: &mut String,
        histogram: &Histogram,
        bin: usize,
        (x, slot): (f64, f64),
        most: u64,
    ) -> Added {
        let width = (slot - 1.0).max(0.5);
        let count = nearest_u64_to_f64(histogram.count(bin));
        let height = CHART_HEIGHT * count / nearest_u64_to_f64(most);
        let y = CHART_TOP + CHART_HEIGHT - height;
        let count = grouped(self.alloc, histogram.count(bin))?;
        let title = escaped(self.alloc, histogram.label(bin))?;
        let added = writeln!(
            out,
            "<rect class=\"bar\" x=\"{x:.2}\" y=\"{y:.2}\" width=\"{width:.2}\" \
             height=\"{height:.2}\" fill=\"#2f6f9f\"><title>{count} from {title} on</title></rect>"
        );
        drop((count, title));
        added
    }

    fn add_text(
        &self,
        out: &mut String,
        (x, y): (f64, f64),
        anchor: &str,
        more: &str,
        text: &str,
    ) -> Added {
        let text = escaped(self.alloc, text)?;
        let added = writeln!(
            out,
            "<text x=\"{x:.2}\" y=\"{y:.2}\" text-anchor=\"{anchor}\"{more}>{text}</text>"
        );
        drop(text);
        added
    }
}

/// Adds a cell of the strip, if a row of it is kept.
fn add_cell(out: &mut String, cell: usize, strip: &Strip) -> Added {
    let share = strip.share(cell);
    if !(share > 0.0) {
        return Ok(());
    }
    let x = cell_start(cell, strip.len());
    let width = cell_start(cell.saturating_add(1), strip.len()).saturating_sub(x);
    writeln!(
        out,
        "<rect class=\"cell\" x=\"{x}\" y=\"{STRIP_TOP}\" width=\"{width}\" \
         height=\"{STRIP_HEIGHT}\" fill=\"#2f6f9f\" fill-opacity=\"{share:.3}\"/>"
    )
}

/// Returns the start of a cell in a strip of `cells` cells.
fn cell_start(cell: usize, cells: usize) -> usize {
    let start = cell
        .saturating_mul(STRIP_WIDTH)
        .checked_div(cells)
        .unwrap_or(0);
    start.saturating_add(STRIP_LEFT)
}

/// Returns a text, escaped for XML. Replaces the characters that XML can't have.
fn escaped(alloc: Global, text: &str) -> std::result::Result<String, AllocError> {
    let mut escaped = String::new(alloc);
    for character in text.chars() {
        match character {
            '&' => escaped.push_str("&amp;")?,
            '<' => escaped.push_str("&lt;")?,
            '>' => escaped.push_str("&gt;")?,
            '"' => escaped.push_str("&quot;")?,
            '\u{FFFE}' | '\u{FFFF}' => escaped.push('?')?,
            _ => escaped.push(visible(character))?,
        }
    }
    Ok(escaped)
}
