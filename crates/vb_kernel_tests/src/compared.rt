//! Comparisons of what is given with what is wanted. Each is proved once here, whereas each use of
//! `assert_eq!` is proved again, with all that it prints.
ghost use Rattle.std.specs.Iterator.{IsFinite};
ghost use Rattle.std.specs.Prelude.{IsTrue};

use std::alloc::Allocator;
use std::fmt::{Debug, Display};
use std::process::Abort;

/// The condition holds.
pub(crate) fn holds(rt: &impl Abort, condition: bool)
    ensures { IsTrue condition }
{
    assert!(rt; condition);
}

/// The two values are equal.
pub(crate) fn equal<T: Copy + PartialEq + Debug>(rt: &impl Abort, given: T, wanted: T) {
    assert_eq!(rt; given, wanted);
}

/// The two values are equal. If they aren't, the failure shows the case too.
pub(crate) fn equal_at<T, C>(rt: &impl Abort, given: T, wanted: T, case: C)
where
    T: Copy + PartialEq + Debug,
    C: Copy + PartialEq + Debug,
{
    equal(rt, (given, case), (wanted, case));
}

/// The iterator gives these items, and no others.
pub(crate) fn gives<I: Iterator + Drop>(rt: &impl Abort, items: I, wanted: &[I::Item])
where
    I::Item: Copy + PartialEq + Debug,
    requires { I.can_next items × IsFinite (I.remaining items) }
{
    let mut left = wanted.iter();
    for item in items {
        equal(rt, Some(item), left.next().copied());
    }
    equal(rt, left.len(), 0);
}

/// The value is shown by this text.
pub(crate) fn shows<A: Allocator>(rt: &impl Abort, alloc: A, value: &impl Display, text: &str) {
    let shown = format!(in alloc; "{value}").expect(rt, "a text");
    equal(rt, shown.as_str(), text);
    drop(shown);
}
