//! What `{:?}` of a set is.
use crate::buffer::compared::equal;
use crate::buffer::made::window;
use std::alloc::Global;
use std::process::Abort;
use vb_bit_buffer::BitBuffer;
use vb_core::Result;
use vb_mem::ByteBuffer;

/// The set that was made is printed so.
fn prints(rt: &impl Abort, alloc: Global, made: Result<BitBuffer>, wanted: &str) {
    let set = made.expect(rt, "a set");
    let text = format!(in alloc; "{set:?}").expect(rt, "memory");
    drop(set);
    equal(rt, text.as_str(), wanted);
    drop(text);
}

/// How many bytes there are, all of them 0x0F, the length of a window from bit 2 on, and its text:
/// at most 64 bits.
const PRINTED: &[(usize, usize, &str)] = &[
    (1, 0, "BitBuffer()"),
    (1, 3, "BitBuffer(110)"),
    (
        9,
        64,
        "BitBuffer(1100001111000011110000111100001111000011110000111100001111000011)",
    ),
    (
        9,
        65,
        "BitBuffer(1100001111000011110000111100001111000011110000111100001111000011..)",
    ),
];

#[test]
fn at_most_64_bits_are_printed(rt: HostRuntime) {
    for (count, len, wanted) in PRINTED {
        let set = window(ByteBuffer::full(rt.alloc(), 0x0F, *count), 2, *len);
        prints(&rt, rt.alloc(), set, wanted);
    }
}
