//! The edges of a histogram's bins: 1, 2 or 5 times a power of ten, or multiples of that.
use std::alloc::{AllocError, Global};
use std::num::{nearest_i64_to_f64, nearest_u64_to_f64, saturating_f64_to_i64};

/// The most bins of equal width, about.
const BINS: f64 = 16.0;

/// The most edges.
const MOST: usize = 32;

/// Bins may grow with the numbers if the greatest is at least this many times the least.
const DECADES: f64 = 1000.0;
/// The least finite float. It replaces a first edge that would be below it.
const LEAST: f64 = -1.7976931348623157e308;

/// The factors of a power of ten in a step.
const DIGITS: &[i128] = &[1, 2, 5];

/// A power of ten, times 1, 2 or 5.
#[derive(Clone, Copy)]
struct Step {
    digit: i128,
    exponent: i64,
}

impl Step {
    /// Returns the least step that is at least `width`.
    fn above(alloc: Global, width: f64) -> Result<Step, AllocError> {
        let exponent = saturating_f64_to_i64(width.log10().floor());
        let mut step = Step { digit: 1, exponent };
        for more in 0..2i64 {
            for digit in DIGITS {
                step = Step {
                    digit: *digit,
                    exponent: exponent.saturating_add(more),
                };
                if step.times(alloc, 1)? >= width {
                    return Ok(step);
                }
            }
        }
        Ok(step)
    }

    /// Returns the float that is nearest to a multiple of the step.
    fn times(self, alloc: Global, number: i128) -> Result<f64, AllocError> {
        let multiple = self.digit.wrapping_mul(number);
        let text = format!(in alloc; "{multiple}e{}", self.exponent)?;
        let found = text.as_str().parse::<f64>().unwrap_or(0.0 / 0.0);
        drop(text);
        Ok(found)
    }

    /// Returns the step as a whole number, if it is one of 64 bits.
    fn whole(self) -> Option<i64> {
        let exponent = u32::try_from(self.exponent).ok()?;
        let power = 10i64.checked_pow(exponent)?;
        let digit = i64::try_from(self.digit).ok()?;
        power.checked_mul(digit)
    }
}

/// Returns whether the numbers of a range are at least 0, span a factor of [`DECADES`] or more, and
/// have their mean in the first of [`BINS`] bins of equal width. Most of them are then likely in
/// that bin.
fn is_skewed(least: f64, greatest: f64, mean: f64) -> bool {
    let start = if least == 0.0 { 1.0 } else { least };
    least >= 0.0 && greatest / start >= DECADES && mean - least < (greatest - least) / BINS
}

/// Returns the number at which each bin of whole numbers begins: the first one at the least number,
/// or below it. The last bin has no end. The bins have equal width, or grow with the numbers if
/// these are skewed (`is_skewed`).
pub fn wholes(alloc: Global, least: i64, greatest: i64, mean: f64) -> Result<Vec<i64>, AllocError> {
    let (low, high) = (nearest_i64_to_f64(least), nearest_i64_to_f64(greatest));
    if is_skewed(low, high, mean) {
        return growing_wholes(alloc, least, greatest);
    }
    // Two large numbers may round to the same float.
    let width = nearest_u64_to_f64(greatest.abs_diff(least)) / BINS;
    let width = if width < 1.0 { 1.0 } else { width };
    let step = Step::above(alloc, width)?.whole().unwrap_or(i64::MAX);
    even_wholes(
        alloc,
        i128::from(step),
        i128::from(least),
        i128::from(greatest),
    )
}

/// Returns edges at equal distances.
fn even_wholes(
    alloc: Global,
    step: i128,
    least: i128,
    greatest: i128,
) -> Result<Vec<i64>, AllocError> {
    let steps = least.checked_div_euclid(step).unwrap_or(0);
    let mut edge = steps.wrapping_mul(step);
    let mut edges = Vec::new(alloc);
    for _ in 0..MOST {
        if edge > greatest {
            break;
        }
        edges.push(i64::try_from(edge).unwrap_or(i64::MIN))?;
        edge = edge.wrapping_add(step);
    }
    Ok(edges)
}

/// Returns edges whose distances grow with the numbers.
fn growing_wholes(alloc: Global, least: i64, greatest: i64) -> Result<Vec<i64>, AllocError> {
    let mut all = Vec::new(alloc);
    all.push(0)?;
    for exponent in 0..19i64 {
        for digit in DIGITS {
            let step = Step {
                digit: *digit,
                exponent,
            };
            if let Some(edge) = step.whole() {
                all.push(edge)?;
            }
        }
    }
    let (first, count) = span_of_wholes(all.as_slice(), least, greatest);
    let edges = some(alloc, all.as_slice(), first, count);
    drop(all);
    edges
}

/// Returns the index of the last edge at or below `least`, and the number of edges from it up to
/// `greatest`.
fn span_of_wholes(all: &[i64], least: i64, greatest: i64) -> (usize, usize) {
    let mut first = 0usize;
    let mut end = 0usize;
    for (place, edge) in all.iter().enumerate() {
        if *edge <= least {
            first = place;
        }
        if *edge <= greatest {
            end = place.saturating_add(1);
        }
    }
    (first, end.saturating_sub(first))
}

/// Returns the number at which each bin of floats begins, as [`wholes`] does, but in bins of equal
/// width if the least is 0.
pub fn floats(alloc: Global, least: f64, greatest: f64, mean: f64) -> Result<Vec<f64>, AllocError> {
    if least > 0.0 && is_skewed(least, greatest, mean) {
        return growing_floats(alloc, least, greatest);
    }
    let width = greatest / BINS - least / BINS;
    if width <= 0.0 {
        return Vec::from_elem(alloc, least, 1);
    }
    even_floats(alloc, Step::above(alloc, width)?, least, greatest)
}

/// Returns edges at equal distances.
fn even_floats(
    alloc: Global,
    step: Step,
    least: f64,
    greatest: f64,
) -> Result<Vec<f64>, AllocError> {
    let first = saturating_f64_to_i64((least / step.times(alloc, 1)?).floor());
    let mut edges = Vec::new(alloc);
    for place in 0..=MOST {
        let edge = step
            .times(alloc, i128::from(first).wrapping_add(place as i128))?
            .max(LEAST);
        if !(edge <= greatest && edge.is_finite()) {
            break;
        }
        edges.push(edge)?;
    }
    Ok(edges)
}

/// Returns edges whose distances grow with the numbers.
fn growing_floats(alloc: Global, least: f64, greatest: f64) -> Result<Vec<f64>, AllocError> {
    let mut all = Vec::new(alloc);
    for exponent in -323..309i64 {
        for digit in DIGITS {
            let step = Step {
                digit: *digit,
                exponent,
            };
            all.push(step.times(alloc, 1)?)?;
        }
    }
    let (first, count) = span_of_floats(all.as_slice(), least, greatest);
    let edges = some(alloc, all.as_slice(), first, count);
    drop(all);
    edges
}

/// Returns the index of the last edge at or below `least`, and the number of edges from it up to
/// `greatest`.
fn span_of_floats(all: &[f64], least: f64, greatest: f64) -> (usize, usize) {
    let mut first = 0usize;
    let mut end = 0usize;
    for (place, edge) in all.iter().enumerate() {
        if *edge <= least {
            first = place;
        }
        if *edge <= greatest {
            end = place.saturating_add(1);
        }
    }
    (first, end.saturating_sub(first))
}

/// Returns `count` edges from index `first` on, or every k-th of them, so that there are at most
/// [`MOST`].
fn some<T: Copy>(
    alloc: Global,
    all: &[T],
    first: usize,
    count: usize,
) -> Result<Vec<T>, AllocError> {
    let each = count.div_ceil(MOST).max(1);
    let mut edges = Vec::new(alloc);
    let mut place = first;
    for _ in 0..count.div_ceil(each) {
        if let Some(edge) = all.get(place) {
            edges.push(*edge)?;
        }
        place = place.saturating_add(each);
    }
    Ok(edges)
}

/// Returns the text of a float's edge.
pub fn label(alloc: Global, edge: f64) -> Result<String, AllocError> {
    let size = edge.abs();
    if size == 0.0 || (size >= 1e-4 && size < 1e12) {
        format!(in alloc; "{edge}")
    } else {
        format!(in alloc; "{edge:e}")
    }
}
