//! Calls that make a set: each of their requests for memory refused in turn.
use crate::compared::{REFUSED, equal, shows_set};
use crate::made::{own_taken, taken};
use std::alloc::Allocator;
use std::process::Abort;
use vb_set::{BitBuffer, BitBufferMut, Result};
use vb_testing::{Handle, Refusing};

/// A call that makes a set.
enum Call {
    Take,
    TakeValid,
    Taken,
    TakenValid,
    Open,
    Shared,
}

impl Call {
    fn make<A: Allocator + Clone>(&self, alloc: A) -> Result<BitBuffer<A>> {
        match self {
            Call::Take => take(alloc, &[3, 2, 1, 0], false),
            Call::TakeValid => take(alloc, &[9, 1, 9, 3], true),
            Call::Taken => taken_of(BitBuffer::from_indices(alloc, 4, [1, 3]), false),
            Call::TakenValid => taken_of(BitBuffer::from_indices(alloc, 4, [1, 3]), true),
            Call::Open => open(alloc),
            Call::Shared => BitBuffer::from_indices(alloc, 4, [1, 3]),
        }
    }
}

/// Takes at these indices from four bits. If `is_valid`, the bits are the validity too.
fn take<A: Allocator + Clone>(alloc: A, indices: &[u8], is_valid: bool) -> Result<BitBuffer<A>> {
    let set = BitBuffer::from_indices(alloc.clone()?, 4, [1, 3])?;
    let bits = set.as_view();
    let made = taken(
        alloc,
        bits,
        indices,
        if is_valid { Some(bits) } else { None },
    );
    drop(set);
    made
}

/// The same by the set's own call.
fn taken_of<A: Allocator + Clone>(
    made: Result<BitBuffer<A>>,
    is_valid: bool,
) -> Result<BitBuffer<A>> {
    let set = made?;
    let bits = set.as_view();
    let taken = if is_valid {
        own_taken(&set, &[9, 1, 9, 3], Some(bits))
    } else {
        own_taken(&set, &[3, 2, 1, 0], None)
    };
    drop(set);
    taken
}

fn open<A: Allocator + Clone>(alloc: A) -> Result<BitBuffer<A>> {
    BitBufferMut::from_indices(alloc, 4, [1, 3])?.freeze()
}

/// The calls, each with the bits that it makes, and how many requests it makes.
const ROWS: &[(Call, &str, u64)] = &[
    (Call::Take, "1010", 9),
    (Call::TakeValid, "0101", 9),
    (Call::Taken, "1010", 9),
    (Call::TakenValid, "0101", 9),
    (Call::Open, "0101", 4),
    (Call::Shared, "0101", 4),
];

/// The set that was made has these bits; or the refusal is passed on.
fn makes<A: Allocator + Clone>(
    rt: &impl Abort,
    made: Result<BitBuffer<A>>,
    bits: &str,
) -> Result<()> {
    let set = made?;
    shows_set(rt, &set, bits);
    drop(set);
    Ok(())
}

#[test]
fn sets_at_indices_show_their_bits_or_each_request_is_refused(rt: HostRuntime) {
    let heap = &Refusing::new(rt.alloc(), 0);
    for (call, bits, requests) in ROWS {
        for _ in heap.in_turn() {
            let answer = makes(&rt, call.make(Handle { inner: heap }), bits);
            equal(&rt, answer, heap.wanted(Ok(()), REFUSED));
        }
        equal(&rt, (heap.has_refused(), heap.asked()), (false, *requests));
    }
}
