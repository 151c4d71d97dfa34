//! What answers look like.
use crate::compared::equal;
use std::alloc::Global;
use std::process::Abort;
use vb_command::{Answer, Refusal};

/// Asserts that an answer is printed as `text`, and drops the answer.
fn prints(rt: &impl Abort, alloc: Global, answer: Answer, text: &str) {
    let printed = format!(in alloc; "{answer}").expect(rt, "memory");
    drop(answer);
    equal(rt, printed.as_str(), text);
    drop(printed);
}

#[test]
fn answers_are_printed(rt: HostRuntime) {
    let alloc = rt.alloc();
    prints(&rt, alloc, Answer::Done, "ok");
    let most = Answer::Number(18446744073709551615);
    prints(&rt, alloc, most, "18446744073709551615");
    prints(&rt, alloc, Answer::Truth(true), "1");
    prints(&rt, alloc, Answer::Truth(false), "0");
    prints(&rt, alloc, Answer::Place(Some(0)), "0");
    prints(&rt, alloc, Answer::Place(None), "none");
}

const REFUSALS: &[(Refusal, &str)] = &[
    (Refusal::BadSlot, "refused BadSlot"),
    (Refusal::BadWindow, "refused BadWindow"),
    (Refusal::OutOfRange, "refused OutOfRange"),
    (Refusal::LengthMismatch, "refused LengthMismatch"),
    (Refusal::TakeOutOfRange(0), "refused TakeOutOfRange 0"),
    (Refusal::TooManyBits, "refused TooManyBits"),
    (Refusal::OutOfMemory, "refused OutOfMemory"),
];

#[test]
fn refusals_are_printed(rt: HostRuntime) {
    for (refusal, text) in REFUSALS {
        prints(&rt, rt.alloc(), Answer::Refused(*refusal), text);
    }
}

/// A list of these items.
fn list<T: Copy>(rt: &impl Abort, alloc: Global, items: &[T]) -> Vec<T> {
    items.to_vec(alloc).expect(rt, "memory")
}

#[test]
fn lists_are_printed(rt: HostRuntime) {
    let alloc = rt.alloc();
    let bits = list(&rt, alloc, &[true, true, false]);
    prints(&rt, alloc, Answer::Bits(bits), "110");
    let places = list(&rt, alloc, &[1, 2, 18446744073709551614]);
    prints(
        &rt,
        alloc,
        Answer::Places(places),
        "1,2,18446744073709551614",
    );
    let runs = list(&rt, alloc, &[(1, 3), (4, 7)]);
    prints(&rt, alloc, Answer::Runs(runs), "1-3,4-7");
    let text = "BitBuffer { len: 1, buffer: [true] }";
    let shown = String::from_str(alloc, text).expect(&rt, "memory");
    prints(&rt, alloc, Answer::Text(shown), text);
}

#[test]
fn lists_of_nothing_are_a_dash(rt: HostRuntime) {
    let alloc = rt.alloc();
    prints(&rt, alloc, Answer::Bits(Vec::new(alloc)), "-");
    prints(&rt, alloc, Answer::Places(Vec::new(alloc)), "-");
    prints(&rt, alloc, Answer::Runs(Vec::new(alloc)), "-");
}
