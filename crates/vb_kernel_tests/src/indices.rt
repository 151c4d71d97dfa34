//! Numbers as indices.
use crate::compared::equal;
use std::process::Abort;
use vb_core::BitIndex;

/// The number is this index, or none.
fn names<I: BitIndex>(rt: &impl Abort, index: I, place: Option<usize>) {
    equal(rt, index.place(), place);
}

#[test]
fn unsigned_numbers_name_places_up_to_usize(rt: HostRuntime) {
    names(&rt, 255u8, Some(255));
    names(&rt, 65535u16, Some(65535));
    names(&rt, 40000u32, Some(40000));
    names(&rt, u64::MAX, Some(usize::MAX));
    names(&rt, usize::MAX, Some(usize::MAX));
    names(&rt, 18446744073709551615u128, Some(usize::MAX));
    names(&rt, 18446744073709551616u128, None);
}

#[test]
fn signed_numbers_below_0_name_no_place(rt: HostRuntime) {
    names(&rt, -128i8, None);
    names(&rt, 127i8, Some(127));
    names(&rt, -1i16, None);
    names(&rt, 0i32, Some(0));
    names(&rt, i64::MIN, None);
    names(&rt, i64::MAX, Some(9223372036854775807));
    names(&rt, -1isize, None);
    names(&rt, -1i128, None);
    names(&rt, 18446744073709551615i128, Some(usize::MAX));
    names(&rt, 18446744073709551616i128, None);
}
