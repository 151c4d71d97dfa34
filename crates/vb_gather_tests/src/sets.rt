//! Calls on sets that make another one.
use crate::compared::{asked_for, equal};
use crate::given::{Bits, numbers};
use std::alloc::{Allocator, Global};
use std::process::Abort;
use vb_bit_buffer::BitBuffer;
use vb_core::{BufferError, Result};
use vb_gather::{Deposit, Filter, Take};
use vb_testing::Refusing;
use vb_view::BitBufferView;

/// A call on a set, which is given the view of another one too.
#[derive(Clone, Copy)]
enum Call {
    Filtered,
    Deposited,
    IntersectByRank,
    /// The bits at the indices from 0 on, one per bit of the other set.
    Taken,
    /// The same where the other set is true, and false elsewhere.
    TakenWhereValid,
}

impl Call {
    fn of<A: Allocator + Clone>(
        self,
        set: &BitBuffer<A>,
        other: BitBufferView<'_>,
        indices: &[u32],
    ) -> Result<BitBuffer<A>> {
        match self {
            Call::Filtered => set.filtered(other),
            Call::Deposited => set.deposited(other),
            Call::IntersectByRank => set.intersect_by_rank(other),
            Call::Taken => set.taken(indices, None),
            Call::TakenWhereValid if indices.len() == other.len() => {
                set.taken(indices, Some(other))
            }
            Call::TakenWhereValid => Err(BufferError::NotAligned),
        }
    }
}

/// A call, the set that it is called on, the other one, and how many bits it makes.
type Row = (Call, Bits, Bits, usize);

const ROWS: &[Row] = &[
    // A body that allocates for all bits, and shrinks that, fails here.
    (Call::Filtered, Bits(100_000, 3), Bits(100_000, 1000), 100),
    // A body that allocates a byte for each bit fails here.
    (Call::Filtered, Bits(100_000, 3), Bits(100_000, 10), 10_000),
    (Call::Filtered, Bits(100_000, 3), Bits(100_000, 1), 100_000),
    (Call::Filtered, Bits(0, 1), Bits(0, 1), 0),
    // Bodies that allocate eight times the bytes fail here.
    (Call::Deposited, Bits(100, 3), Bits(100_000, 1000), 100_000),
    (Call::Deposited, Bits(8000, 3), Bits(8000, 1), 8000),
    (Call::Deposited, Bits(0, 1), Bits(0, 1), 0),
    (
        Call::IntersectByRank,
        Bits(100_000, 1000),
        Bits(100, 3),
        100_000,
    ),
    (Call::IntersectByRank, Bits(8000, 1), Bits(8000, 3), 8000),
    (Call::IntersectByRank, Bits(0, 1), Bits(0, 1), 0),
    // Bodies that allocate for all bits, or a byte for each taken bit, fail here.
    (Call::Taken, Bits(100_000, 3), Bits(8, 1), 8),
    (Call::Taken, Bits(100_000, 3), Bits(8000, 1), 8000),
    (Call::Taken, Bits(100_000, 3), Bits(0, 1), 0),
    // Bodies that copy the validity, or allocate once more, fail here.
    (Call::TakenWhereValid, Bits(100_000, 3), Bits(8, 2), 8),
    (Call::TakenWhereValid, Bits(100_000, 3), Bits(8000, 2), 8000),
    (Call::TakenWhereValid, Bits(100_000, 3), Bits(0, 1), 0),
];

/// A call allocates the bytes of the bits that it makes, and the count of their owners.
fn asks_for_what_it_makes(rt: &impl Abort, heap: &Refusing<Global>, alloc: Global, row: &Row) {
    let set = row.1.set(heap).expect(rt, "memory");
    let other = row.2.set(alloc).expect(rt, "memory");
    let indices = numbers(alloc, u32::try_from(other.len()).unwrap_or(0)).expect(rt, "memory");
    heap.refuse(0);
    let made = row.0.of(&set, other.as_view(), indices.as_slice());
    let made = made.expect(rt, "memory");
    asked_for(rt, heap, 1, row.3.div_ceil(8));
    equal(rt, made.len(), row.3);
    drop((set, other, indices, made));
}

#[test]
fn sets_take_the_bytes_of_their_bits(rt: HostRuntime) {
    let heap = Refusing::new(rt.alloc(), 0);
    for row in ROWS {
        asks_for_what_it_makes(&rt, &heap, rt.alloc(), row);
    }
}

/// A bad index is an error after the bytes are allocated, and before their owner is.
#[test]
fn memory_comes_before_indices(rt: HostRuntime) {
    let heap = Refusing::new(rt.alloc(), 0);
    let set = Bits(9, 2).set(&heap).expect(&rt, "memory");
    heap.refuse(0);
    let refused = set.taken(&[9u8; 4000], None).err();
    let wanted = BufferError::TakeOutOfRange { position: 0 };
    equal(&rt, (refused, heap.asked_bytes()), (Some(wanted), 500));
    equal(&rt, heap.asked(), 1);
    heap.refuse(1);
    let refused = set.taken(&[9u8; 4000], None).err();
    equal(&rt, refused, Some(BufferError::OutOfMemory));
    drop(set);
}
