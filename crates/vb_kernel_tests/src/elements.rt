//! Numbers as bytes, and back.
ghost use Rattle.std.specs.Prelude.{◌≡◌, length};

use crate::compared::equal;
use std::process::Abort;
use vb_core::Element;

const ZEROS: [u8; 16] = [0; 16];

/// Written over other bytes, the value has this form.
fn is_put<T: Element>(rt: &impl Abort, value: T, form: &[u8]) {
    let mut room = [0xAA; 16];
    let out = room.get_mut(..T::SIZE).expect(rt, "room");
    value.put(out);
    equal(rt, &*out, form);
}

/// Writes the value, reads its bytes, and writes again what was read.
fn assert_form<T: Element + PartialEq>(rt: &impl Abort, value: T, form: &[u8])
    requires { length form.now ≡ T.SIZE }
{
    equal(rt, (T::SIZE, T::ALIGN), (form.len(), form.len()));
    equal(rt, value.is_value(), true);
    is_put(rt, value, form);
    let read = T::get(form);
    equal(rt, read == value, true);
    is_put(rt, read, form);
    is_put(rt, T::zero(), ZEROS.get(..T::SIZE).expect(rt, "bytes"));
}

#[test]
fn unsigned_numbers_have_their_lowest_byte_first(rt: HostRuntime) {
    assert_form(&rt, 200u8, &[200]);
    assert_form(&rt, 0x1234u16, &[0x34, 0x12]);
    assert_form(&rt, 256u32, &[0, 1, 0, 0]);
    assert_form(&rt, 0x0102_0304_0506_0708u64, &[8, 7, 6, 5, 4, 3, 2, 1]);
    assert_form(&rt, 1usize << 63, &[0, 0, 0, 0, 0, 0, 0, 0x80]);
    assert_form(
        &rt,
        5u128 << 64,
        &[0, 0, 0, 0, 0, 0, 0, 0, 5, 0, 0, 0, 0, 0, 0, 0],
    );
}

#[test]
fn signed_numbers_are_in_twos_complement(rt: HostRuntime) {
    assert_form(&rt, -1i8, &[0xFF]);
    assert_form(&rt, -2i16, &[0xFE, 0xFF]);
    assert_form(&rt, i32::MIN, &[0, 0, 0, 0x80]);
    assert_form(
        &rt,
        i64::MAX,
        &[0xFF, 0xFF, 0xFF, 0xFF, 0xFF, 0xFF, 0xFF, 0x7F],
    );
    assert_form(
        &rt,
        -256isize,
        &[0, 0xFF, 0xFF, 0xFF, 0xFF, 0xFF, 0xFF, 0xFF],
    );
    assert_form(&rt, -1i128, &[0xFF; 16]);
}
