//! Comparisons of what is given with what is wanted. Each is proved once here, and so tests are
//! proved in less time. Sets are dropped by a call of `drop`: its proof takes a fifth of the time
//! of the one of a drop at the end of a block.
ghost use Rattle.std.specs.Prelude.{◌≡◌, true};

use std::alloc::Allocator;
use std::fmt::Debug;
use std::process::Abort;
use vb_set::{BitBuffer, BitBufferMut, Result};

/// The two values are equal.
pub(crate) fn equal<T: Copy + PartialEq + Debug>(rt: &impl Abort, given: T, wanted: T) {
    assert_eq!(rt; given, wanted);
}

/// The condition holds, as later calls require.
pub(crate) fn holds(rt: &impl Abort, condition: bool)
    ensures { condition ≡ true }
{
    assert!(rt; condition);
}

/// The set that was made has these bits, `1` for a true one, and no others.
pub(crate) fn shows<A: Allocator + Clone>(
    rt: &impl Abort,
    made: Result<BitBuffer<A>>,
    bits: &str,
) -> Result<()> {
    let set = made?;
    shows_set(rt, &set, bits);
    drop(set);
    Ok(())
}

/// The set has these bits, `1` for a true one, and no others.
pub(crate) fn shows_set<A: Allocator + Clone>(rt: &impl Abort, set: &BitBuffer<A>, bits: &str) {
    let digits = bits.as_bytes();
    equal(rt, set.len(), digits.len());
    for i in 0..set.len().min(digits.len()) {
        equal(rt, set.value(i), digits[i] == b'1');
    }
}

/// The set has these bits; compares each bit and the number of set bits.
pub(crate) fn same<A: Allocator + Clone>(rt: &impl Abort, set: &BitBufferMut<A>, list: &[bool]) {
    equal(rt, set.len(), list.len());
    let mut ones = 0usize;
    for (i, bit) in list.iter().enumerate() {
        ones = ones.saturating_add(usize::from(*bit));
        if i < set.len() {
            equal(rt, set.value(i), *bit);
        }
    }
    equal(rt, set.as_view().true_count(), ones);
}

/// Whether the call made a value. Drops it.
pub(crate) fn is_made<M: Drop>(made: Result<M>) -> bool {
    match made {
        Ok(made) => {
            drop(made);
            true
        }
        Err(_) => false,
    }
}

/// The set that was made has `len` bits, in these bytes.
pub(crate) fn packs<A: Allocator + Clone>(
    rt: &impl Abort,
    made: Result<BitBuffer<A>>,
    len: usize,
    bytes: &[u8],
) {
    let set = made.expect(rt, "a set");
    equal(rt, set.len(), len);
    equal(rt, set.inner().as_slice(), bytes);
    drop(set);
}

/// The same for a set to edit.
pub(crate) fn packs_open<A: Allocator + Clone>(
    rt: &impl Abort,
    made: Result<BitBufferMut<A>>,
    len: usize,
    bytes: &[u8],
) {
    let set = made.expect(rt, "a set");
    equal(rt, set.len(), len);
    equal(rt, set.as_slice(), bytes);
    drop(set);
}
