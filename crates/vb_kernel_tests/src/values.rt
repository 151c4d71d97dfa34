//! Values of any type: the least and the greatest one, those about 0, and any others.
use std::alloc::Global;
use std::process::Abort;
use vb_core::Element;

/// The bytes of the greatest signed value of a type, except its last byte.
const ONES: [u8; 16] = [0xFF; 16];

/// The value that the first bytes represent.
fn of_bytes<T: Element>(bytes: &[u8]) -> T {
    if bytes.len() < T::SIZE {
        return T::zero();
    }
    T::get(&bytes[..T::SIZE])
}

/// The value with these bytes, except that its last byte is `top`.
fn with_top<T: Element>(mut bytes: [u8; 16], top: u8) -> T {
    if 0 < T::SIZE && T::SIZE <= 16 {
        bytes[T::SIZE - 1] = top;
    }
    of_bytes(&bytes)
}

/// The value with number `kind`: 0; all bits set (the greatest unsigned value, or -1); the least
/// and the greatest signed one; 1; one of four that `state` selects; and any one that `state`
/// determines.
pub(crate) fn value<T: Element>(kind: usize, state: u32) -> T {
    let [a, b, c, d] = state.to_le_bytes();
    match kind {
        0 => T::zero(),
        1 => of_bytes(&ONES),
        2 => with_top([0; 16], 0x80),
        3 => with_top(ONES, 0x7F),
        4 => of_bytes(&[1, 0, 0, 0, 0, 0, 0, 0, 0, 0, 0, 0, 0, 0, 0, 0]),
        5 => with_top([0; 16], d % 4),
        _ => of_bytes(&[a, b, c, d, b, c, d, a, c, d, a, b, d, a, b, c]),
    }
}

/// Values without a pattern, determined by `seed`.
pub(crate) fn values<T: Element>(
    rt: &impl Abort,
    alloc: Global,
    len: usize,
    seed: u32,
) -> Vec<T, Global> {
    let mut made = Vec::new(alloc);
    let mut state = seed;
    for _ in 0..len {
        state = state.wrapping_mul(1_664_525).wrapping_add(1_013_904_223);
        let kind = (state >> 24) as usize % 8;
        made.push(value(kind, state)).expect(rt, "room");
    }
    made
}
