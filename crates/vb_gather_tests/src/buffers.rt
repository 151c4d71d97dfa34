//! Calls on buffers that make another one.
use crate::compared::{asked_for, equal};
use crate::given::{Bits, numbers};
use std::alloc::{Allocator, Global};
use std::process::Abort;
use vb_bit_buffer::BitBuffer;
use vb_core::{BufferError, Result};
use vb_gather::{Filter, Take};
use vb_mem::Buffer;
use vb_testing::Refusing;
use vb_view::BitBufferView;

/// A call on a buffer, which is given a set too.
#[derive(Clone, Copy)]
enum Call {
    Filtered,
    /// The items at the indices from 0 on, one per bit of the set.
    Taken,
    /// The same where the set is true, and 0 elsewhere.
    TakenWhereValid,
}

impl Call {
    fn of<A: Allocator + Clone>(
        self,
        items: &Buffer<u32, A>,
        given: BitBufferView<'_>,
        indices: &[u32],
    ) -> Result<Buffer<u32, A>> {
        match self {
            Call::Filtered => items.filtered(given),
            Call::Taken => items.taken(indices, None),
            Call::TakenWhereValid if indices.len() == given.len() => {
                items.taken(indices, Some(given))
            }
            Call::TakenWhereValid => Err(BufferError::NotAligned),
        }
    }
}

/// A call on a hundred thousand numbers, the set that it is given, and how many items it makes.
type Row = (Call, Bits, usize);

const ROWS: &[Row] = &[
    // A body that allocates for all items, and shrinks that, fails here.
    (Call::Filtered, Bits(100_000, 1000), 100),
    (Call::Filtered, Bits(100_000, 1), 100_000),
    // A body that allocates for all items fails here.
    (Call::Taken, Bits(100, 1), 100),
    (Call::Taken, Bits(0, 1), 0),
    // A body that allocates for only the valid ones, or for all items, fails here.
    (Call::TakenWhereValid, Bits(100, 50), 100),
    (Call::TakenWhereValid, Bits(0, 1), 0),
];

/// A call allocates the bytes of the items that it makes, and the count of their owners.
fn asks_for_what_it_makes(rt: &impl Abort, heap: &Refusing<Global>, alloc: Global, row: &Row) {
    let items = numbers(heap, 100_000).expect(rt, "memory");
    let given = row.1.set(alloc).expect(rt, "memory");
    let indices = numbers(alloc, u32::try_from(given.len()).unwrap_or(0)).expect(rt, "memory");
    heap.refuse(0);
    let made = row.0.of(&items, given.as_view(), indices.as_slice());
    let made = made.expect(rt, "memory");
    asked_for(rt, heap, 1, row.2.saturating_mul(4));
    equal(rt, made.len(), row.2);
    drop((items, given, indices, made));
}

#[test]
fn buffers_take_the_bytes_of_their_items(rt: HostRuntime) {
    let heap = Refusing::new(rt.alloc(), 0);
    for row in ROWS {
        asks_for_what_it_makes(&rt, &heap, rt.alloc(), row);
    }
}

/// No item is kept: no bytes are allocated.
#[test]
fn no_items_take_no_bytes(rt: HostRuntime) {
    let heap = Refusing::new(rt.alloc(), 0);
    let items = numbers(&heap, 9).expect(&rt, "memory");
    let none = BitBuffer::new_unset(rt.alloc(), 9).expect(&rt, "memory");
    heap.refuse(0);
    let made = items.filtered(none.as_view()).expect(&rt, "memory");
    asked_for(&rt, &heap, 1, 0);
    equal(&rt, made.len(), 0);
    drop((items, none, made));
}

/// A bad index is an error after the bytes are allocated, and before their owner is.
#[test]
fn memory_comes_before_indices(rt: HostRuntime) {
    let heap = Refusing::new(rt.alloc(), 0);
    let items = numbers(&heap, 9).expect(&rt, "memory");
    heap.refuse(0);
    let refused = items.taken(&[9u8; 1000], None).err();
    let wanted = BufferError::TakeOutOfRange { position: 0 };
    equal(&rt, (refused, heap.asked_bytes()), (Some(wanted), 4000));
    equal(&rt, heap.asked(), 1);
    heap.refuse(1);
    let refused = items.taken(&[9u8; 1000], None).err();
    equal(&rt, refused, Some(BufferError::OutOfMemory));
    drop(items);
}
