//! Texts that are aligned, or cut to fit.
use std::alloc::{AllocError, Global};

/// Returns the number of characters of a text.
pub fn width(text: &str) -> usize {
    let mut width = 0usize;
    for _ in text.chars() {
        width = width.saturating_add(1);
    }
    width
}

/// Adds the spaces that align a text of `given` characters to `width`: `width - given`, or none.
pub fn pad(out: &mut String, given: usize, width: usize) -> Result<(), AllocError> {
    for _ in given..width {
        out.push(' ')?;
    }
    Ok(())
}

/// Returns the beginning of a text, at most about `most` letters wide. If the text is wider, the
/// last character becomes dots. Characters from U+1100 on, as of East Asia, count as two letters.
pub fn fitted(alloc: Global, text: &str, most: usize) -> Result<String, AllocError> {
    let mut fitted = String::new(alloc);
    let mut left = most;
    for character in text.chars() {
        let width = if character < '\u{1100}' { 1 } else { 2 };
        if left < width {
            drop(fitted.pop());
            fitted.push('…')?;
            return Ok(fitted);
        }
        left = left.saturating_sub(width);
        fitted.push(character)?;
    }
    Ok(fitted)
}

/// Removes the spaces at the end of a text.
pub fn trim_end(text: &mut String) -> Result<(), AllocError> {
    for _ in 0..text.len() {
        match text.pop() {
            Some(last) if last.is_whitespace() => {}
            Some(last) => return text.push(last),
            None => break,
        }
    }
    Ok(())
}
