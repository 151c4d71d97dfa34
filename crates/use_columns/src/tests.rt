//! Known results, with ample memory and with each allocation failing in turn.
mod columns;
mod filters;
mod first;
mod kernels;
mod records;

use std::fmt::Debug;
use std::process::Abort;

/// Asserts that two values are equal. The tests call it so that this is proved once.
fn equal<T: Copy + PartialEq + Debug>(rt: &impl Abort, given: T, wanted: T) {
    assert_eq!(rt; given, wanted);
}
