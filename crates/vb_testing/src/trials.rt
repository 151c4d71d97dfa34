//! Comparisons for the tests of this crate, and trials that allocate. They are functions, so that
//! each is proved only once.
use crate::Refusing;
use std::alloc::{AllocError, Allocator};
use std::fmt::Debug;
use std::process::Abort;
use std::rc::Rc;

/// Asserts that two values are equal.
pub fn equal<T: Copy + PartialEq + Debug>(rt: &impl Abort, given: T, wanted: T) {
    assert_eq!(rt; given, wanted);
}

/// Asserts that two lists of bytes are equal.
pub fn equal_bytes(rt: &impl Abort, given: &[u8], wanted: &[u8]) {
    assert_eq!(rt; given, wanted);
}

/// Asserts the number of requests that the heap received, and whether it refused one of them.
pub fn has_counted<B: Allocator>(
    rt: &impl Abort,
    heap: &Refusing<B>,
    asked: u64,
    has_refused: bool,
) {
    equal(rt, (heap.asked(), heap.has_refused()), (asked, has_refused));
}

/// Makes two requests: one for the capacity of one item, and one to grow. Returns the number of
/// items.
pub fn two_items<A: Allocator>(alloc: A) -> Result<usize, AllocError> {
    let mut list = Vec::with_capacity(alloc, 1)?;
    let is_pushed = list.push(1u8).is_ok() && list.push(2).is_ok();
    let len = list.len();
    drop(list);
    if is_pushed { Ok(len) } else { Err(AllocError) }
}

/// Makes one request. Returns the shared number.
pub fn shared_number<A: Allocator>(alloc: A) -> Result<usize, AllocError> {
    let shared = Rc::new(alloc, 3usize)?;
    let number = *shared;
    drop(shared);
    Ok(number)
}

/// Makes one request. Returns the length of the text.
pub fn text<A: Allocator>(alloc: A) -> Result<usize, AllocError> {
    let text = String::with_capacity(alloc, 8)?;
    let len = text.len();
    drop(text);
    Ok(len)
}
