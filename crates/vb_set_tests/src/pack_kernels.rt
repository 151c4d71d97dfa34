//! Worked rows of the kernels.
ghost use Rattle.std.specs.Prelude.{◌≤◌};

use crate::compared::equal;
use std::process::Abort;
use vb_pack::{
    collect_bool_bytes, collect_bool_word, collect_bool_word_scalar, collect_bool_words,
    collect_bool_words_multiversioned, pack_bool_word_lanes, pack_bool_word_swar, pack_bools,
    pack_bools_into_words, pack_truthy,
};

#[test]
fn each_kernel_packs_the_same_word(rt: HostRuntime) {
    let mut bools = [false; 64];
    for i in 0..64 {
        bools[i] = i % 3 == 0;
    }
    equal(&rt, pack_bool_word_swar(&bools), 0x9249_2492_4924_9249);
    equal(&rt, pack_bool_word_lanes(&bools), 0x9249_2492_4924_9249);
}

/// Packs `len` bits into a word by both kernels; a bit is true if its index has no bit of the mask.
#[tactic(auto, using(vb_pack::proofs::AnswersLemmas::CanAsk_always))]
fn words(len: usize, mask: usize) -> (u64, u64)
    requires { len ≤ 64 }
{
    let word = collect_bool_word(len, &mut |i| i & mask == 0);
    let scalar = collect_bool_word_scalar(len, &mut |i| i & mask == 0);
    (word, scalar)
}

#[test]
fn digits_past_the_last_place_are_0(rt: HostRuntime) {
    equal(&rt, words(5, 1), (21, 21));
    equal(&rt, words(0, 0), (0, 0));
    equal(&rt, words(64, 0), (u64::MAX, u64::MAX));
}

#[test]
#[tactic(auto, using(vb_pack::proofs::AnswersLemmas::CanAsk_always))]
fn later_words_stay(rt: HostRuntime) {
    let mut words = [9u64; 3];
    collect_bool_words(&mut words, 65, &mut |_| true);
    equal(&rt, words, [u64::MAX, 1, 9]);
    let mut words = [9u64; 3];
    collect_bool_words_multiversioned(&mut words, 65, &mut |_| true);
    equal(&rt, words, [u64::MAX, 1, 9]);
}

#[test]
#[tactic(auto, using(vb_pack::proofs::AnswersLemmas::CanAsk_always))]
fn bytes_of_even_places(rt: HostRuntime) {
    let mut bytes = [0xFFu8; 11];
    let mut asked = 0u32;
    collect_bool_bytes(
        &mut bytes,
        77,
        &mut |i| {
            asked = asked.wrapping_add(1);
            i % 2 == 0
        },
    );
    let wanted = [
        0x55, 0x55, 0x55, 0x55, 0x55, 0x55, 0x55, 0x55, 0x55, 0x15, 0xFF,
    ];
    equal(&rt, bytes, wanted);
    equal(&rt, asked, 77);
}

#[test]
#[tactic(auto, using(vb_pack::proofs::AnswersLemmas::CanAsk_always))]
fn words_from_a_digit_on(rt: HostRuntime) {
    let mut words = [0b11111u64, 0];
    pack_bools_into_words(&mut words, 5, 70, &mut |_| true);
    equal(&rt, words, [u64::MAX, 2047]);
}

/// Values of which those that aren't 0 are at irregular distances.
fn values() -> [u8; 200] {
    let mut values = [0u8; 200];
    for i in 0..200 {
        values[i] = (i * i % 11 % 4 * 85) as u8;
    }
    values
}

/// Which of the values aren't 0.
fn truths(values: &[u8; 200]) -> [bool; 200] {
    let mut truths = [false; 200];
    for i in 0..200 {
        truths[i] = values[i] != 0;
    }
    truths
}

/// The bytes into which the first `len` are packed bit by bit, and those behind them.
fn looped(truths: &[bool; 200], len: usize) -> [u8; 26]
    requires { len ≤ 200 }
{
    let mut bytes = [0xA5u8; 26];
    for i in 0..len {
        let before = if i % 8 == 0 { 0 } else { bytes[i / 8] };
        bytes[i / 8] = before | u8::from(truths[i]) << (i % 8);
    }
    bytes
}

fn packs_as_the_loop(rt: &impl Abort, len: usize)
    requires { len ≤ 200 }
{
    let values = values();
    let truths = truths(&values);
    let wanted = looped(&truths, len);
    let mut bytes = [0xA5u8; 26];
    pack_bools(&mut bytes, &truths[..len]);
    equal(rt, bytes, wanted);
    let mut bytes = [0xA5u8; 26];
    pack_truthy(&mut bytes, &values[..len]);
    equal(rt, bytes, wanted);
}

#[test]
fn slices_on_both_sides_of_a_word(rt: HostRuntime) {
    for len in 0..200 {
        packs_as_the_loop(&rt, len);
    }
}
