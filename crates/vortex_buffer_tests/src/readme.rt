//! The examples of the README on bits, buffers and sets.
use std::test::Fail;
use vortex_buffer::{BitBufferMut, Buffer, bit_select, count_ones, window_fits};

#[test]
fn bits_are_counted_and_selected(rt: HostRuntime) {
    // Which of ten rows are valid, from bit 3 of the first byte on.
    let valid = [0b1110_1000u8, 0b0000_0110];
    assert!(rt; window_fits(&valid, 3, 10));
    assert_eq!(rt; count_ones(&valid, 3, 10), 6);
    assert_eq!(rt; bit_select(&valid, 3, 10, 1), Some(2));
}

#[test]
fn buffers_are_sliced_copied_and_edited(rt: HostRuntime) -> Result<(), Fail> {
    // Four values, a slice that shares them, and a copy of the slice that is edited.
    let values = Buffer::copy_from(rt.alloc(), &[10u32, 20, 30, 40])?;
    let middle = values.slice_unaligned(1..3)?;
    let mut edited = middle.clone()?.into_mut()?;
    edited.push(50)?;
    assert_eq!(rt; middle.as_slice(), [20, 30].as_slice());
    assert_eq!(rt; edited.as_slice(), [20, 30, 50].as_slice());
    Ok(())
}

#[test]
fn sets_are_edited_and_shared(rt: HostRuntime) -> Result<(), Fail> {
    // A set of rows that is edited, and then shared.
    let mut rows = BitBufferMut::new_set(rt.alloc(), 4)?;
    rows.append(false)?;
    let shared = rows.freeze()?;
    assert_eq!(rt; shared.slice(2..5)?.true_count(), 2);
    assert_eq!(rt; shared.select_unset(0), Some(4));
    Ok(())
}
