//! Comparisons of floats, compared with what IEEE 754 says for their bits.
use crate::float_values::{ByBits, Rank, Ranks, bits_of, rank};
use crate::written::{ALL, ROOM, STALE, are_written, holds};
use std::alloc::Global;
use std::process::Abort;
use vb_bits::window_fits;
use vb_compare::{compare_floats_into, compare_floats_with_into};

/// Floats, and one rank per float.
#[derive(Drop)]
struct Floats<T> {
    values: Vec<T, Global>,
    ranks: Vec<Rank, Global>,
}

impl<T: ByBits> Floats<T> {
    /// So many floats: each of [`ByBits::BITS`] in turn, `turns` times before the next one.
    fn in_turn(rt: &impl Abort, alloc: Global, len: usize, turns: usize) -> Floats<T> {
        let (mut values, mut ranks) = (Vec::new(alloc), Vec::new(alloc));
        for place in 0..len {
            let bits = bits_of::<T>(place.checked_div(turns).unwrap_or(0));
            values.push(T::of_bits(bits)).expect(rt, "room");
            ranks.push(rank::<T>(bits)).expect(rt, "room");
        }
        Floats { values, ranks }
    }
}

/// Compares floats with others.
fn with_others<T: ByBits>(rt: &impl Abort, offset: usize, left: &Floats<T>, right: &Floats<T>) {
    for op in ALL {
        let mut out = [STALE; ROOM];
        let len = left.values.len();
        holds(rt, window_fits(&out, offset, len));
        holds(rt, right.values.len() == len);
        compare_floats_with_into(&mut out, offset, &left.values, op, &right.values);
        let pairs = Ranks {
            left: &left.ranks,
            op,
            right: &right.ranks,
        };
        are_written(rt, &out, (offset, len), &pairs);
    }
}

/// Compares floats with float `kind`.
fn with_number<T: ByBits>(
    rt: &impl Abort,
    alloc: Global,
    offset: usize,
    left: &Floats<T>,
    kind: usize,
) {
    let bits = bits_of::<T>(kind);
    let mut same = Vec::new(alloc);
    for _ in left.ranks.iter() {
        same.push(rank::<T>(bits)).expect(rt, "room");
    }
    for op in ALL {
        let mut out = [STALE; ROOM];
        let len = left.values.len();
        holds(rt, window_fits(&out, offset, len));
        compare_floats_into(&mut out, offset, &left.values, op, T::of_bits(bits));
        let pairs = Ranks {
            left: &left.ranks,
            op,
            right: &same,
        };
        are_written(rt, &out, (offset, len), &pairs);
    }
    drop(same);
}

/// Numbers of floats: around eight, around a block of 64, and around more blocks.
const LENGTHS: [usize; 15] = [0, 1, 7, 8, 9, 20, 63, 64, 65, 81, 127, 128, 129, 191, 200];

/// Offsets within a byte and around 64.
const OFFSETS: [usize; 12] = [0, 1, 2, 3, 4, 5, 6, 7, 8, 63, 64, 65];

/// Windows of each length at each offset.
fn around_blocks<T: ByBits>(rt: &impl Abort, alloc: Global) {
    for len in LENGTHS {
        let left = Floats::<T>::in_turn(rt, alloc, len, 1);
        let right = Floats::<T>::in_turn(rt, alloc, len, 3);
        for offset in OFFSETS {
            with_others(rt, offset, &left, &right);
            with_number(rt, alloc, offset, &left, len.wrapping_add(offset));
        }
        drop((left, right));
    }
}

/// Compares each float of [`ByBits::BITS`] with each: as a single number, and in two slices of all
/// pairs, most of which are in whole blocks.
fn each_with_each<T: ByBits>(rt: &impl Abort, alloc: Global) {
    let kinds = T::BITS.len();
    let pairs = kinds.saturating_mul(kinds);
    let left = Floats::<T>::in_turn(rt, alloc, pairs, 1);
    let right = Floats::<T>::in_turn(rt, alloc, pairs, kinds);
    with_others(rt, 3, &left, &right);
    drop((left, right));
    let all = Floats::<T>::in_turn(rt, alloc, 100, 1);
    for kind in 0..kinds {
        with_number(rt, alloc, 5, &all, kind);
    }
    drop(all);
}

#[test]
fn each_float_compares_with_each_as_ieee_754_says(rt: HostRuntime) {
    each_with_each::<f32>(&rt, rt.alloc());
    each_with_each::<f64>(&rt, rt.alloc());
}

#[test]
fn windows_of_floats_are_written_and_others_stay(rt: HostRuntime) {
    around_blocks::<f32>(&rt, rt.alloc());
    around_blocks::<f64>(&rt, rt.alloc());
}
