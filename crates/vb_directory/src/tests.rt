//! Tests of the number of probes that ranks and selects make.
ghost use Rattle.std.specs.Prelude.{◌≡◌, true};

use crate::counts::{Counts, TallyGroups};
use crate::groups::{rank_in_groups, select_in_groups};
use std::alloc::Global;
use std::fmt::Debug;
use std::process::Abort;
use vb_count::Plain;
use vb_view::BitBufferView;

/// Stops the test if the two values differ.
fn equal<T: Copy + PartialEq + Debug>(rt: &impl Abort, given: T, wanted: T) {
    assert_eq!(rt; given, wanted);
}

/// Stops the test unless the condition holds, which later calls require.
fn holds(rt: &impl Abort, condition: bool)
    ensures { condition ≡ true }
{
    assert!(rt; condition);
}

/// Five bytes of bits: a bit is set if its index is a multiple of 5.
const BY_FIVES: [u8; 5] = [0x21, 0x84, 0x10, 0x42, 0x08];

/// Returns the bytes of `len` such bits.
fn by_fives(rt: &impl Abort, alloc: Global, len: usize) -> Vec<u8, Global> {
    let mut bytes = Vec::new(alloc);
    for k in 0..len.div_ceil(8) {
        bytes.push(BY_FIVES[k % 5]).expect(rt, "room");
    }
    bytes
}

/// Returns the number of probes that a rank in block `block` of `len` bits makes: none if there is
/// one block; one in the first group, and in the first block of another one; else two.
fn probes_in(len: usize, block: usize) -> u64 {
    if len <= 512 {
        0
    } else if block < 128 || block % 128 == 0 {
        1
    } else {
        2
    }
}

/// Tests that the rank of `i` is right, and makes the number of probes that it should.
fn ranks(rt: &impl Abort, alloc: Global, bits: BitBufferView<'_>, i: usize) {
    holds(rt, 0 < i);
    holds(rt, i <= bits.len());
    let counts = Counts::of(alloc, bits, bits.len()).expect(rt, "counts");
    let mut tally = TallyGroups::new(&counts);
    let mut src = Plain::new(bits.inner());
    let ones = rank_in_groups(&mut src, bits.offset(), bits.len(), &mut tally, i);
    equal(rt, ones, bits.slice(0..i).true_count());
    equal(rt, tally.probes(), probes_in(bits.len(), (i - 1) / 512));
    drop(counts);
}

/// Tests that selects are right, and that they make at most one probe for each binary digit of
/// `blocks + 1`, where `blocks` is the number of blocks.
fn selects(rt: &impl Abort, alloc: Global, bits: BitBufferView<'_>, n: usize) {
    holds(rt, 0 < bits.len());
    let counts = Counts::of(alloc, bits, bits.len()).expect(rt, "counts");
    let most = u64::from(usize::BITS - bits.len().div_ceil(512).saturating_add(1).leading_zeros());
    for value in [true, false] {
        let mut tally = TallyGroups::new(&counts);
        let mut src = Plain::new(bits.inner());
        let (offset, len) = (bits.offset(), bits.len());
        let place = select_in_groups(&mut src, offset, len, &mut tally, n, value);
        let wanted = if value {
            bits.select(n)
        } else {
            bits.select_unset(n)
        };
        equal(rt, place, wanted);
        equal(rt, tally.probes() <= most, true);
    }
    drop(counts);
}

/// One bit, one block and a bit more, one group and a bit more, and several.
const LENGTHS: [usize; 7] = [1, 512, 513, 65_536, 65_537, 131_072, 200_003];

const PLACES: [usize; 7] = [1, 512, 513, 13_107, 65_536, 65_537, 160_000];

#[test]
fn questions_take_few_probes(rt: HostRuntime) {
    for len in LENGTHS {
        let bytes = by_fives(&rt, rt.alloc(), len);
        holds(&rt, len.div_ceil(8) <= bytes.len());
        let bits = BitBufferView::new(bytes.as_slice(), len);
        for i in PLACES {
            ranks(&rt, rt.alloc(), bits, i.min(len));
            selects(&rt, rt.alloc(), bits, i - 1);
        }
        drop(bytes);
    }
}
