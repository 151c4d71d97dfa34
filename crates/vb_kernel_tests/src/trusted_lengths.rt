//! Iterators that know how many items they give.
ghost use Rattle.std.specs.Prelude.{◌≡◌};

use crate::compared::equal;
use std::process::Abort;
use vb_core::{TrustedLen, trusted_len};

/// Takes all items, of which there are to be `n`, and looks at the count before each.
fn assert_counts_down<I: TrustedLen>(rt: &impl Abort, mut iter: I, n: usize)
where
    I::Item: Drop,
    requires { I.can_next iter }
{
    for left in (0..n).rev() {
        equal(rt, iter.exact_len(), left.saturating_add(1));
        drop(iter.next().expect(rt, "an item"));
    }
    equal(rt, iter.exact_len(), 0);
    equal(rt, iter.next().is_none(), true);
    drop(iter);
}

#[test]
fn ranges_count_down(rt: HostRuntime) {
    assert_counts_down(&rt, 250..255u8, 5);
    assert_counts_down(&rt, 0..3u16, 3);
    assert_counts_down(&rt, 7..9u32, 2);
    assert_counts_down(&rt, 9..7u64, 0);
    assert_counts_down(&rt, 4..4usize, 0);
    assert_counts_down(&rt, -2..2i8, 4);
    assert_counts_down(&rt, -5..-1i16, 4);
    assert_counts_down(&rt, -1..1i32, 2);
    assert_counts_down(&rt, 3..-3i64, 0);
}

#[test]
fn the_longest_ranges_have_their_number(rt: HostRuntime) {
    equal(&rt, (i8::MIN..i8::MAX).exact_len(), 255);
    equal(&rt, (i64::MIN..i64::MAX).exact_len(), usize::MAX);
    equal(&rt, (0..u64::MAX).exact_len(), usize::MAX);
}

const TENS: &[u8] = &[10, 20, 30];

#[test]
fn slices_and_adapters_count_down(rt: HostRuntime) {
    assert_counts_down(&rt, TENS.iter(), 3);
    let adapter = trusted_len(TENS.iter(), 3);
    equal(&rt, adapter.size_hint(), (3, Some(3)));
    assert_counts_down(&rt, adapter, 3);
    assert_counts_down(&rt, trusted_len(TENS.iter().skip(1), 2), 2);
}

#[test]
fn an_adapter_is_printed(rt: HostRuntime) {
    let adapter = trusted_len(TENS.iter(), 3);
    let text = format!(in rt.alloc(); "{:?}", adapter).expect(&rt, "a text");
    let wanted = "TrustedLenAdapter { iter: Iter([10, 20, 30]), left: 3 }";
    equal(&rt, text.as_str(), wanted);
    drop(text);
}

#[test]
#[tactic(auto, using(vb_core::specs::ExactCounts::unsigned_range_counts))]
fn what_a_closure_makes_of_a_range_is_counted(rt: HostRuntime) {
    let halves = trusted_len((0..3usize).map(|number| number / 2), 3);
    equal(&rt, halves.exact_len(), 3);
}
