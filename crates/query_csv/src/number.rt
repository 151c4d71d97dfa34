//! Fields that are numbers, and the order between whole numbers and floats.
use std::cmp::Ordering;
use std::num::{f64_to_bits_with_nan, saturating_f64_to_i64};
use std::str;

/// Returns the whole number that a field is, if it fits 64 bits: digits, with a sign or without.
pub fn whole(field: &[u8]) -> Option<i64> {
    match str::from_utf8(field) {
        Ok(text) => text.parse::<i64>().ok(),
        Err(_) => None,
    }
}

/// Returns the finite float that is nearest to the decimal number of a field. Words such as `inf`
/// and `NaN` are not numbers.
pub fn float(field: &[u8]) -> Option<f64> {
    if !is_decimal(field) {
        return None;
    }
    let number = match str::from_utf8(field) {
        Ok(text) => text.parse::<f64>().ok()?,
        Err(_) => return None,
    };
    if number.is_finite() {
        Some(number)
    } else {
        None
    }
}

/// Returns whether all bytes of a field may be in a decimal number.
fn is_decimal(field: &[u8]) -> bool {
    for byte in field {
        if !matches!(*byte, b'0'..=b'9' | b'.' | b'+' | b'-' | b'e' | b'E') {
            return false;
        }
    }
    true
}

/// Returns whether a field is a whole number of any size.
pub fn is_digits(field: &[u8]) -> bool {
    let digits = match field {
        [b'-' | b'+', rest @ ..] => rest,
        _ => field,
    };
    for digit in digits {
        if !digit.is_ascii_digit() {
            return false;
        }
    }
    !digits.is_empty()
}

/// Compares a whole number with a finite float exactly, which a conversion to `f64` would not.
pub fn compare(whole: i64, float: f64) -> Ordering {
    let floor = float.floor();
    if floor >= 9_223_372_036_854_775_808.0 {
        return Ordering::Less;
    }
    if floor < -9_223_372_036_854_775_808.0 {
        return Ordering::Greater;
    }
    match whole.cmp(&saturating_f64_to_i64(floor)) {
        Ordering::Equal if floor < float => Ordering::Less,
        order => order,
    }
}

/// Returns a whole number for a float that isn't a NaN. These numbers have the same order as the
/// floats: a number has the bits of the absolute value, and is negated for a negative float. Both
/// zeros become 0.
pub fn ordered(float: f64) -> i64 {
    let bits = f64_to_bits_with_nan(float);
    let size = (bits & 0x7FFF_FFFF_FFFF_FFFF) as i64;
    if bits >> 63 == 0 { size } else { -size }
}
