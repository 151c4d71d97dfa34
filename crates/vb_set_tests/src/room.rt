//! Bits appended within the capacity of a set, which doesn't allocate and keeps the capacity; and
//! bits appended a few at a time, which seldom allocates. No clause counts requests, and none says
//! for more than 512 bits that the capacity stays the same.
use crate::compared::equal;
use crate::made::window;
use std::alloc::{Allocator, Global};
use std::process::Abort;
use vb_set::{BitBuffer, BitBufferMut, BitBufferView, Result};
use vb_testing::{Handle, Refusing};

/// A call that adds bits.
enum Call {
    View,
    Buffer,
    Bytes,
    Bools,
    Copies,
    Resize,
    Iterator,
    Trusted,
    Appender,
}

const CALLS: &[Call] = &[
    Call::View,
    Call::Buffer,
    Call::Bytes,
    Call::Bools,
    Call::Copies,
    Call::Resize,
    Call::Iterator,
    Call::Trusted,
    Call::Appender,
];

impl Call {
    /// Adds one bit per bit of `added`: the bits of `added`, those of the list, or true bits.
    fn add<A: Allocator + Clone>(
        &self,
        set: &mut BitBufferMut<A>,
        added: &BitBuffer<A>,
        list: &[bool],
    ) -> Result<()> {
        let bits = added.as_view();
        match self {
            Call::View => set.append_view(bits),
            Call::Buffer => set.append_buffer(added),
            Call::Bytes => set.append_bits(bits.inner(), bits.offset(), bits.len()),
            Call::Bools => set.append_bools(list),
            Call::Copies => set.append_n(true, bits.len()),
            Call::Resize => set.resize(set.len().saturating_add(bits.len()), true),
            Call::Iterator => set.extend(bits.iter()),
            Call::Trusted => set.extend_trusted(bits.iter()),
            Call::Appender => append_each(set, bits),
        }
    }
}

/// Adds the bits of a view one by one.
fn append_each<A: Allocator + Clone>(
    set: &mut BitBufferMut<A>,
    bits: BitBufferView<'_>,
) -> Result<()> {
    let mut appender = set.appender();
    for bit in bits.iter() {
        appender.append(bit)?;
    }
    Ok(())
}

/// True values: a call that adds truth values adds the first of these.
const TRUES: [bool; 5000] = [true; 5000];

/// `len` true bits at this offset.
fn trues<A: Allocator + Clone>(alloc: A, offset: usize, len: usize) -> Result<BitBuffer<A>> {
    window(
        alloc,
        (0xFF, len.div_ceil(8).saturating_add(1)),
        offset,
        len,
    )?
    .freeze()
}

/// A set of two bits at this offset, with capacity for `len` more.
fn roomy<A: Allocator + Clone>(alloc: A, offset: usize, len: usize) -> Result<BitBufferMut<A>> {
    let mut set = window(alloc, (0xFF, 1), offset, 2)?;
    match set.reserve_exact(len) {
        Ok(()) => Ok(set),
        Err(error) => {
            drop(set);
            Err(error)
        }
    }
}

/// Appends bits within the capacity, after it has been reserved once more. Neither makes a request.
fn stays(
    rt: &impl Abort,
    heap: &Refusing<Global>,
    call: &Call,
    (offset, from, len): (usize, usize, usize),
) {
    let added = trues(Handle { inner: heap }, from, len).expect(rt, "a set");
    let mut set = roomy(Handle { inner: heap }, offset, len).expect(rt, "room");
    let room = set.capacity();
    heap.refuse(1);
    let answers = (
        set.reserve(len),
        call.add(&mut set, &added, &TRUES[..len.min(5000)]),
    );
    equal(rt, answers, (Ok(()), Ok(())));
    equal(rt, (set.capacity(), heap.asked()), (room, 0));
    let count = len.saturating_add(2);
    equal(rt, (set.len(), set.as_view().true_count()), (count, count));
    heap.refuse(0);
    drop((added, set));
}

/// Both sides begin at the same bit of a byte, or at different ones. A body that always allocates
/// for more than 512 bits, even within the capacity, fails here.
#[test]
fn long_appends_within_the_room_ask_for_nothing(rt: HostRuntime) {
    let heap = Refusing::new(rt.alloc(), 0);
    for call in CALLS {
        for len in [1, 511, 512, 513, 600, 5000] {
            for offset in [0, 3] {
                for from in [0, 2, 5] {
                    stays(&rt, &heap, call, (offset, from, len));
                }
            }
        }
    }
}

/// Adds the bits of `added` to an empty set `times` times.
fn grow<A: Allocator + Clone>(
    rt: &impl Abort,
    alloc: A,
    call: &Call,
    added: &BitBuffer<A>,
    times: usize,
) {
    let mut set = BitBufferMut::empty(alloc);
    let list = &TRUES[..added.len().min(5000)];
    for _ in 0..times {
        call.add(&mut set, added, list).expect(rt, "room");
    }
    equal(rt, set.len(), added.len().saturating_mul(times));
    drop(set);
}

/// How many requests there were, and for how many bytes in all.
type Asked = (u64, usize);

/// How many bits are added at a time, how many times, the requests of calls that add them at once,
/// and those of calls that add at most 64 at a time, such as `extend`.
const GROWN: &[(usize, usize, Asked, Asked)] = &[
    (1, 8, (1, 8), (1, 8)),
    (1, 65, (2, 24), (2, 24)),
    (1, 100_000, (12, 32_760), (12, 32_760)),
    (64, 1600, (12, 32_760), (12, 32_760)),
    (100, 1000, (11, 26_611), (12, 32_760)),
    (1000, 100, (8, 31_875), (12, 32_760)),
];

/// The capacity doubles. Bodies that grow only to what they need fail here.
#[test]
fn bits_added_a_few_at_a_time_ask_seldom(rt: HostRuntime) {
    let heap = Refusing::new(rt.alloc(), 0);
    for call in CALLS {
        for (count, times, at_once, by_words) in GROWN {
            let added = trues(&heap, 0, *count).expect(&rt, "a set");
            heap.refuse(0);
            grow(&rt, &heap, call, &added, *times);
            let wanted = match call {
                Call::Iterator | Call::Appender => *by_words,
                _ => *at_once,
            };
            equal(&rt, (heap.asked(), heap.asked_bytes()), wanted);
            drop(added);
        }
    }
}
