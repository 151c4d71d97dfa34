//! Comparisons of what is given with what is wanted. Each is proved once here, and so tests are
//! proved in less time. Sets are dropped by a call of `drop`: its proof takes a fifth of the time
//! of the one of a drop at the end of a block.
use std::alloc::Allocator;
use std::fmt::Debug;
use std::process::Abort;
use vb_bit_buffer::BitBuffer;
use vb_core::Result;

/// The two values are equal.
pub(crate) fn equal<T: Copy + PartialEq + Debug>(rt: &impl Abort, given: T, wanted: T) {
    assert_eq!(rt; given, wanted);
}

/// The set that was made has these bits, `1` for a true one, and no others.
pub(crate) fn shows<A: Allocator + Clone>(
    rt: &impl Abort,
    made: Result<BitBuffer<A>>,
    bits: &str,
) -> Result<()> {
    let set = made?;
    has_bits(rt, &set, bits.as_bytes());
    drop(set);
    Ok(())
}

fn has_bits<A: Allocator + Clone>(rt: &impl Abort, set: &BitBuffer<A>, digits: &[u8]) {
    equal(rt, set.len(), digits.len());
    for i in 0..set.len().min(digits.len()) {
        equal(rt, set.value(i), digits[i] == b'1');
    }
}

/// The set that was made has these bits and no others.
pub(crate) fn shows_list<A: Allocator + Clone>(
    rt: &impl Abort,
    made: Result<BitBuffer<A>>,
    bits: &[bool],
) {
    let set = made.expect(rt, "a set");
    equal(rt, set.len(), bits.len());
    for i in 0..bits.len().min(set.len()) {
        equal(rt, set.value(i), bits[i]);
    }
    drop(set);
}

/// The number of bits of the set that was made.
pub(crate) fn len_of<A: Allocator + Clone>(made: Result<BitBuffer<A>>) -> Result<usize> {
    let set = made?;
    let len = set.len();
    drop(set);
    Ok(len)
}

/// The set that was made is equal to the other one or not, as `wanted` says.
pub(crate) fn compares<A: Allocator + Clone>(
    rt: &impl Abort,
    set: &BitBuffer<A>,
    made: Result<BitBuffer<A>>,
    wanted: bool,
) {
    let other = made.expect(rt, "a set");
    equal(rt, *set == other, wanted);
    drop(other);
}
