//! Answers as they are printed.
use crate::machine::text::Text;

/// Adds an index, or that there is none.
pub(crate) fn add_place(text: &mut Text, place: Option<usize>) {
    match place {
        Some(place) => text.add_number(place),
        None => text.add("none"),
    }
}

/// Adds each bit as a digit.
pub(crate) fn add_bits(text: &mut Text, bits: &[bool]) {
    for bit in bits {
        text.add(if *bit { "1" } else { "0" });
    }
}

/// Adds the indices of the true bits.
pub(crate) fn add_places(text: &mut Text, bits: &[bool]) {
    for (place, bit) in bits.iter().enumerate() {
        if *bit {
            text.add_item(place);
        }
    }
}

/// Adds the runs of true bits: where each begins, and the index after its end.
pub(crate) fn add_runs(text: &mut Text, bits: &[bool]) {
    let mut before = false;
    for (place, bit) in bits.iter().chain(&[false]).enumerate() {
        if *bit && !before {
            text.add_item(place);
        }
        if before && !*bit {
            text.add("-");
            text.add_number(place);
        }
        before = *bit;
    }
}

/// Adds the length and the first 16 bits.
pub(crate) fn add_shown(text: &mut Text, bits: &[bool]) {
    text.add("BitBuffer { len: ");
    text.add_number(bits.len());
    text.add(", buffer: [");
    for (place, bit) in bits.iter().take(16).enumerate() {
        text.add(if place == 0 { "" } else { ", " });
        text.add(if *bit { "true" } else { "false" });
    }
    text.add("] }");
}
