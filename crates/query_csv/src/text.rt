//! Texts that are safe to print in a terminal.
use std::alloc::{AllocError, Global};

/// Returns the character, or a visible symbol for a control character, which could move the cursor.
pub fn visible(character: char) -> char {
    match character {
        '\0'..='\x1F' => char::from_u32(0x2400 + u32::from(character)).unwrap_or('?'),
        '\x7F' => '\u{2421}',
        '\u{80}'..='\u{9F}' => '\u{FFFD}',
        _ => character,
    }
}

/// Returns bytes as a text that is safe to print in a terminal, cut to `most` characters. Bytes
/// that aren't UTF-8 become `U+FFFD`. Allocates the text.
pub fn shown(alloc: Global, bytes: &[u8], most: usize) -> Result<String, AllocError> {
    let enough = most.saturating_mul(4).saturating_add(4);
    let start = bytes.get(..enough).unwrap_or(bytes);
    let whole = String::from_utf8_lossy(alloc, start)?;
    let cut = cut_to(alloc, whole.as_str(), most);
    drop(whole);
    cut
}

/// Returns the first `most` characters of a text. If the text is longer, the last of these becomes
/// dots.
fn cut_to(alloc: Global, text: &str, most: usize) -> Result<String, AllocError> {
    let mut cut = String::new(alloc);
    let mut left = most;
    for character in text.chars() {
        if left == 0 {
            drop(cut.pop());
            cut.push('…')?;
            return Ok(cut);
        }
        left -= 1;
        cut.push(visible(character))?;
    }
    Ok(cut)
}

/// Returns a number with a comma before each group of three digits.
pub fn grouped(alloc: Global, number: u64) -> Result<String, AllocError> {
    let digits = format!(in alloc; "{number}")?;
    let grouped = with_commas(alloc, digits.as_bytes());
    drop(digits);
    grouped
}

fn with_commas(alloc: Global, digits: &[u8]) -> Result<String, AllocError> {
    let mut grouped = String::new(alloc);
    let mut left = digits.len();
    for digit in digits {
        if left % 3 == 0 && left < digits.len() {
            grouped.push(',')?;
        }
        left = left.saturating_sub(1);
        grouped.push(char::from(*digit))?;
    }
    Ok(grouped)
}
