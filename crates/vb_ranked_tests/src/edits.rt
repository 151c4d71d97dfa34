//! Random edits of a directory, compared with one made anew and with plain counts.
use crate::compared::{answers_at, equal, holds, viewed_at};
use crate::made::mixed;
use std::alloc::Allocator;
use std::process::Abort;
use vb_ranked::Ranked;
use vb_set::{BitBufferMut, BitBufferView};

/// A number without a pattern, by a linear congruence.
pub(crate) fn next(state: &mut u64) -> usize {
    *state = state
        .wrapping_mul(6_364_136_223_846_793_005)
        .wrapping_add(1_442_695_040_888_963_407);
    (*state >> 33) as usize
}

/// Edits a directory and a plain set alike: three times a bit that is there, then one bit more.
fn edit<A: Allocator + Clone>(
    rt: &impl Abort,
    ranked: &mut Ranked<A>,
    plain: &mut BitBufferMut<A>,
    state: &mut u64,
) {
    for _ in 0..3 {
        let (n, v) = (next(state), next(state) % 2 == 1);
        let len = plain.len().min(ranked.len());
        if len > 0 {
            plain.set_to(n % len, v);
            ranked.set_to(n % len, v);
        }
    }
    let v = next(state) % 2 == 1;
    plain.append(v).expect(rt, "room");
    ranked.append(v).expect(rt, "room");
    equal(rt, ranked.len(), plain.len());
}

/// Both directories return the same as the bits for index `i` and rank `i`.
fn answer_as_bits<A: Allocator + Clone>(
    rt: &impl Abort,
    (ranked, anew): (&Ranked<A>, &Ranked<A>),
    bits: BitBufferView<'_>,
    i: usize,
) {
    if i <= bits.len() {
        let wanted = viewed_at(rt, bits, i);
        equal(rt, answers_at(rt, ranked, i), wanted);
        equal(rt, answers_at(rt, anew, i), wanted);
    }
}

/// Where blocks begin and end, some of them at a border of two groups of blocks.
const BORDERS: [usize; 9] = [
    0, 511, 512, 65_535, 65_536, 66_047, 66_048, 131_071, 131_072,
];

/// The directory returns the same as one of the same bits that is made anew, and as the bits.
pub(crate) fn is_as_new<A: Allocator + Clone>(
    rt: &impl Abort,
    alloc: A,
    ranked: &Ranked<A>,
    plain: &BitBufferMut<A>,
) {
    let anew = directory(rt, alloc, plain);
    let len = plain.len();
    for i in [1, 513, len / 3, len / 2, len.saturating_sub(1), len] {
        answer_as_bits(rt, (ranked, &anew), plain.as_view(), i);
    }
    for i in BORDERS {
        answer_as_bits(rt, (ranked, &anew), plain.as_view(), i);
    }
    drop(anew);
}

/// A directory of a copy of the bits.
fn directory<A: Allocator + Clone>(
    rt: &impl Abort,
    alloc: A,
    plain: &BitBufferMut<A>,
) -> Ranked<A> {
    Ranked::new(alloc, plain.clone().expect(rt, "a set")).expect(rt, "a directory")
}

#[test]
fn edited_directories_are_as_new(rt: HostRuntime) {
    let mut state = 0x2545_F491_4F6C_DD1D;
    for offset in [0, 3, 13] {
        for len in [0, 500, 1020, 2560] {
            let mut plain = mixed(&rt, rt.alloc(), offset, len);
            let mut ranked = directory(&rt, rt.alloc(), &plain);
            for _ in 0..20 {
                edit(&rt, &mut ranked, &mut plain, &mut state);
                is_as_new(&rt, rt.alloc(), &ranked, &plain);
            }
            drop((plain, ranked));
        }
    }
}

/// Writes the other value to a bit that is there.
fn flip<A: Allocator + Clone>(
    rt: &impl Abort,
    ranked: &mut Ranked<A>,
    plain: &mut BitBufferMut<A>,
    i: usize,
) {
    if i < plain.len() {
        let v = plain.as_view().value(i);
        plain.set_to(i, !v);
        holds(rt, i < ranked.len());
        ranked.set_to(i, !v);
    }
}

/// Flips bits of the first group of blocks, of the last one and of one between, and then adds bits
/// until a new block or group begins.
#[test]
fn edited_groups_are_as_new(rt: HostRuntime) {
    let mut state = 0x9E37_79B9_7F4A_7C15;
    for len in [65_534, 66_046, 131_070, 196_606] {
        let mut plain = mixed(&rt, rt.alloc(), 3, len);
        let mut ranked = directory(&rt, rt.alloc(), &plain);
        for i in BORDERS {
            flip(&rt, &mut ranked, &mut plain, i);
            is_as_new(&rt, rt.alloc(), &ranked, &plain);
        }
        for _ in 0..4 {
            edit(&rt, &mut ranked, &mut plain, &mut state);
            is_as_new(&rt, rt.alloc(), &ranked, &plain);
        }
        drop((plain, ranked));
    }
}
