//! Worked rows.
use crate::compared::{Row, answers, equal, holds};
use crate::made::{by_fives, ones};
use std::alloc::{Allocator, Global};
use std::process::Abort;
use vb_rank::table_of;
use vb_ranked::Ranked;
use vb_set::{BitBufferMut, BitBufferView};

/// 1,100 bits, true where 5 divides the index.
pub(crate) const BY_FIVES: &[Row] = &[
    Row::Rank(0, 0),
    Row::Rank(512, 103),
    Row::Rank(600, 120),
    Row::Rank(1100, 220),
    Row::Select(119, Some(595)),
    Row::Select(219, Some(1095)),
    Row::Select(220, None),
    Row::SelectUnset(0, Some(1)),
    Row::SelectUnset(408, Some(511)),
    Row::SelectUnset(409, Some(512)),
    Row::SelectUnset(879, Some(1099)),
    Row::SelectUnset(880, None),
];

/// The same bits, and bit 1 true.
const WITH_BIT_1: &[Row] = &[
    Row::Rank(600, 121),
    Row::Rank(1100, 221),
    Row::Select(104, Some(515)),
];

const NO_BITS: &[Row] = &[
    Row::Rank(0, 0),
    Row::Select(0, None),
    Row::SelectUnset(0, None),
];

/// 512 true bits.
const BLOCK: &[Row] = &[Row::Rank(512, 512), Row::Select(512, None)];

/// One true bit more.
const MORE_THAN_A_BLOCK: &[Row] = &[Row::Rank(513, 513), Row::Select(512, Some(512))];

/// The table of the bits has these entries.
fn has_table(rt: &impl Abort, alloc: Global, bits: BitBufferView<'_>, wanted: &[usize]) {
    let table = table_of(alloc, bits).expect(rt, "a table");
    equal(rt, table.as_slice(), wanted);
    drop(table);
}

/// A directory of the bits, which returns what the rows say. Its table has these entries.
fn indexed(
    rt: &impl Abort,
    alloc: Global,
    set: BitBufferMut<Global>,
    (table, rows): (&[usize], &[Row]),
) -> Ranked<Global> {
    has_table(rt, alloc, set.as_view(), table);
    let ranked = Ranked::new(alloc, set).expect(rt, "a directory");
    answers(rt, &ranked, rows);
    ranked
}

/// Writes bit 1, and checks the rows.
fn answers_with_bit_1<A: Allocator + Clone>(
    rt: &impl Abort,
    ranked: &mut Ranked<A>,
    v: bool,
    rows: &[Row],
) {
    holds(rt, 1 < ranked.len());
    ranked.set_to(1, v);
    answers(rt, ranked, rows);
}

#[test]
fn every_fifth_bit(rt: HostRuntime) {
    let set = by_fives(&rt, rt.alloc(), 1100);
    let mut ranked = indexed(&rt, rt.alloc(), set, (&[0, 103, 205], BY_FIVES));
    answers_with_bit_1(&rt, &mut ranked, true, WITH_BIT_1);
    answers_with_bit_1(&rt, &mut ranked, true, WITH_BIT_1);
    answers_with_bit_1(&rt, &mut ranked, false, BY_FIVES);
    let set = ranked.into_inner();
    equal(&rt, set.len(), 1100);
    drop(set);
}

#[test]
fn no_bits_have_rank_0_and_no_places(rt: HostRuntime) {
    let set = BitBufferMut::empty(rt.alloc());
    drop(indexed(&rt, rt.alloc(), set, (&[], NO_BITS)));
}

#[test]
fn a_block_of_true_bits_and_one_more(rt: HostRuntime) {
    let set = ones(rt.alloc(), 512).expect(&rt, "a set");
    let mut ranked = indexed(&rt, rt.alloc(), set, (&[0], BLOCK));
    ranked.append(true).expect(&rt, "room");
    answers(&rt, &ranked, MORE_THAN_A_BLOCK);
    has_table(&rt, rt.alloc(), ranked.as_view(), &[0, 512]);
    drop(ranked);
}
