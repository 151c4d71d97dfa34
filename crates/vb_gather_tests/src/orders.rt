//! Which refusal comes first where two could: one for lengths, for memory, or for an index. Copies
//! of the allocator are requests here too.
use crate::compared::equal;
use std::alloc::Allocator;
use std::process::Abort;
use vb_bit_buffer::BitBuffer;
use vb_core::BufferError;
use vb_gather::{Deposit, Filter, Take, take_bits};
use vb_mem::Buffer;
use vb_testing::{Handle, Refusing};
use vb_view::BitBufferView;

/// A call that can't succeed.
#[derive(Clone, Copy)]
enum Call {
    FilterBits,
    FilterItems,
    Deposited,
    IntersectByRank,
    TakeBits,
    TakenBits,
    TakenItems,
    /// The same at positions all of which are valid.
    TakenValid,
}

/// Indices into nine bits or items. The second and the third one are out of range.
const INDICES: [u8; 3] = [0, 9, 200];

impl Call {
    /// The error of the call on nine true bits or items: with eight true bits, or at the indices.
    fn refusal<A: Allocator + Clone>(
        self,
        bits: &BitBuffer<A>,
        items: &Buffer<u32, A>,
        eight: BitBufferView<'_>,
        three: BitBufferView<'_>,
    ) -> Option<BufferError> {
        match self {
            Call::FilterBits => bits.filtered(eight).err(),
            Call::FilterItems => items.filtered(eight).err(),
            Call::Deposited => bits.deposited(eight).err(),
            Call::IntersectByRank => bits.intersect_by_rank(eight).err(),
            Call::TakeBits => taken_by_itself(bits),
            Call::TakenBits => bits.taken(&INDICES, None).err(),
            Call::TakenItems => items.taken(&INDICES, None).err(),
            Call::TakenValid if three.len() == INDICES.len() => {
                items.taken(&INDICES, Some(three)).err()
            }
            Call::TakenValid => None,
        }
    }
}

fn taken_by_itself<A: Allocator + Clone>(bits: &BitBuffer<A>) -> Option<BufferError> {
    match bits.inner().allocator().clone() {
        Ok(alloc) => take_bits(alloc, bits.as_view(), &INDICES, None).err(),
        Err(refused) => Some(refused.into()),
    }
}

const LENGTHS: BufferError = BufferError::LengthMismatch { left: 9, right: 8 };

const SECOND: BufferError = BufferError::TakeOutOfRange { position: 1 };

/// The calls, the error of each with ample memory, and the number of requests before it. Before the
/// error of an index they are for a copy of the allocator and for the bytes, not for the owner.
const ROWS: &[(Call, BufferError, u64)] = &[
    (Call::FilterBits, LENGTHS, 0),
    (Call::FilterItems, LENGTHS, 0),
    (Call::Deposited, LENGTHS, 0),
    (Call::IntersectByRank, LENGTHS, 0),
    (Call::TakeBits, SECOND, 2),
    (Call::TakenBits, SECOND, 2),
    (Call::TakenItems, SECOND, 2),
    (Call::TakenValid, SECOND, 2),
];

/// Refuses each request that comes before the call's own refusal, and then the next one, which the
/// call doesn't make.
fn comes_in_order<A: Allocator + Clone, B: Allocator>(
    rt: &impl Abort,
    heap: &Refusing<B>,
    (bits, items): (&BitBuffer<A>, &Buffer<u32, A>),
    (eight, three): (BitBufferView<'_>, BitBufferView<'_>),
    (call, refusal, requests): (Call, BufferError, u64),
) {
    for request in 1..=requests.saturating_add(1) {
        heap.refuse(request);
        let answer = call.refusal(bits, items, eight, three);
        let first = if request <= requests {
            BufferError::OutOfMemory
        } else {
            refusal
        };
        equal(
            rt,
            (answer, heap.asked()),
            (Some(first), request.min(requests)),
        );
    }
    heap.refuse(0);
}

#[test]
fn refusals_come_in_their_order(rt: HostRuntime) {
    let heap = Refusing::new(rt.alloc(), 0);
    let bits = BitBuffer::new_set(Handle { inner: &heap }, 9).expect(&rt, "memory");
    let items = Buffer::copy_from(Handle { inner: &heap }, &[7u32; 9]).expect(&rt, "memory");
    let eight = BitBuffer::new_set(rt.alloc(), 8).expect(&rt, "memory");
    let three = BitBuffer::new_set(rt.alloc(), 3).expect(&rt, "memory");
    let views = (eight.as_view(), three.as_view());
    for row in ROWS {
        comes_in_order(&rt, &heap, (&bits, &items), views, *row);
    }
    drop((bits, items, eight, three));
}
