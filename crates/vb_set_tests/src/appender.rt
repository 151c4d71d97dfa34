//! Single bits appended by an appender, next to those of plain lists and of `append`. No contract
//! counts requests for memory, or says which one fails.
use crate::compared::{equal, holds, same};
use crate::edits::{LENGTHS, OFFSETS};
use crate::made::window;
use std::alloc::{Allocator, Global};
use std::process::Abort;
use vb_set::{BitBufferMut, BufferError, Result};
use vb_testing::{Handle, Refusing};

/// A bit for each index, with a period of 21.
fn bit_at(i: usize) -> bool {
    (i % 3 == 0) != (i % 7 == 0)
}

/// Appends the same bits to the set and to the list.
fn append_both<A: Allocator + Clone, B: Allocator>(
    set: &mut BitBufferMut<A>,
    list: &mut Vec<bool, B>,
    many: usize,
) -> Result<()> {
    let mut appender = set.appender();
    for _ in 0..many {
        let bit = bit_at(list.len());
        appender.append(bit)?;
        list.push(bit)?;
    }
    Ok(())
}

/// Bits are appended, by one appender after the other, to a window of `bytes` bytes that are all
/// ones. None of the bits after the window shows, and those before it are unchanged.
fn is_plain<A: Allocator + Clone + Copy>(
    rt: &impl Abort,
    alloc: A,
    (offset, len, bytes): (usize, usize, usize),
) {
    let mut set = window(alloc, (0xFF, bytes), offset, len).expect(rt, "a set");
    let mut list = Vec::new(alloc);
    for _ in 0..len {
        list.push(true).expect(rt, "memory");
    }
    for many in [0, 1, 63, 64, 65, 300] {
        append_both(&mut set, &mut list, many).expect(rt, "room");
        same(rt, &set, list.as_slice());
        equal(rt, set.offset(), offset);
    }
    let before = BitBufferMut::from_buffer(set.into_inner(), 0, 0);
    for byte in before.as_slice().iter().take(offset / 8) {
        equal(rt, *byte, 0xFF);
    }
    drop((before, list));
}

/// A body that writes a word twice, or loses the first bit of the next one, fails here too.
#[test]
fn bits_are_appended_after_bits(rt: HostRuntime) {
    for offset in OFFSETS {
        for len in LENGTHS {
            let least = offset.saturating_add(len).div_ceil(8);
            is_plain(&rt, rt.alloc(), (offset, len, least));
            is_plain(&rt, rt.alloc(), (offset, len, 60));
        }
    }
}

/// How many bits were appended before the error, and the error.
type Ended = (usize, Result<()>);

fn by_appender<A: Allocator + Clone>(set: &mut BitBufferMut<A>, many: usize) -> Ended {
    let mut appender = set.appender();
    for i in 0..many {
        if let Err(error) = appender.append(i % 3 == 0) {
            return (i, Err(error));
        }
    }
    (many, Ok(()))
}

fn by_append<A: Allocator + Clone>(set: &mut BitBufferMut<A>, many: usize) -> Ended {
    for i in 0..many {
        if let Err(error) = set.append(i % 3 == 0) {
            return (i, Err(error));
        }
    }
    (many, Ok(()))
}

/// The set has `appended` bits more, every third one true. Bits after an error are appended too.
fn is_kept<A: Allocator + Clone>(
    rt: &impl Abort,
    heap: &Refusing<Global>,
    mut set: BitBufferMut<A>,
    (before, appended): (usize, usize),
) {
    let whole = before.saturating_add(appended);
    equal(rt, set.len(), whole);
    for i in before..set.len() {
        equal(rt, set.value(i), i.saturating_sub(before) % 3 == 0);
    }
    heap.refuse(0);
    equal(rt, by_appender(&mut set, 70), (70, Ok(())));
    equal(rt, set.len(), whole.saturating_add(70));
    drop(set);
}

/// Each request is refused in turn: the appender fails at the same bit as `append`, after the same
/// number of requests and bytes.
#[test]
fn no_bit_is_lost_where_memory_runs_out(rt: HostRuntime) {
    let heap = Refusing::new(rt.alloc(), 0);
    for refused in 1..12 {
        heap.refuse(refused);
        let mut plain = BitBufferMut::empty(Handle { inner: &heap });
        let wanted = by_append(&mut plain, 9000);
        let asked = (heap.asked(), heap.asked_bytes());
        drop(plain);
        heap.refuse(refused);
        let mut set = BitBufferMut::empty(Handle { inner: &heap });
        let ended = by_appender(&mut set, 9000);
        equal(&rt, ended, wanted);
        equal(&rt, (heap.asked(), heap.asked_bytes()), asked);
        equal(&rt, wanted.1.is_err(), refused <= 9);
        is_kept(&rt, &heap, set, (0, ended.0));
    }
}

/// Within the capacity an appender does not allocate. The bit after it fails, but all those before
/// are kept.
#[test]
fn an_appender_fills_the_capacity(rt: HostRuntime) {
    let heap = Refusing::new(rt.alloc(), 0);
    for offset in OFFSETS {
        for len in LENGTHS {
            let bytes = (0xFF, offset.saturating_add(len).div_ceil(8));
            let mut set = window(Handle { inner: &heap }, bytes, offset, len).expect(&rt, "a set");
            set.reserve_exact(200).expect(&rt, "room");
            let room = set.capacity().saturating_sub(len);
            heap.refuse(1);
            let ended = by_appender(&mut set, room);
            equal(&rt, (ended, heap.asked()), ((room, Ok(())), 0));
            let error = Err(BufferError::OutOfMemory);
            equal(&rt, by_appender(&mut set, 1), (0, error));
            equal(&rt, (heap.asked(), set.capacity()), (1, set.len()));
            is_kept(&rt, &heap, set, (len, room));
        }
    }
}
