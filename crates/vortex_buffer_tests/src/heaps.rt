//! From which of two allocators calls allocate: that of an existing buffer, or the given one.
use crate::compared::{equal, holds};
use std::alloc::Global;
use std::process::Abort;
use vb_testing::Refusing;
use vortex_buffer::{
    AlignedBuf, Alignment, Buffer, BufferString, ByteBuffer, copy_to_const_aligned,
};

type Heap<'a> = &'a Refusing<Global>;

/// A heap for existing buffers, and one that is passed to calls.
#[derive(Drop)]
struct Heaps {
    first: Refusing<Global>,
    second: Refusing<Global>,
}

impl Heaps {
    fn new(inner: Global) -> Heaps {
        Heaps {
            first: Refusing::new(inner, 0),
            second: Refusing::new(inner, 0),
        }
    }

    // The number of requests to each heap since the last call.
    fn asked(&self) -> (u64, u64) {
        let asked = (self.first.asked(), self.second.asked());
        self.first.refuse(0);
        self.second.refuse(0);
        asked
    }

    // Whether the first heap got requests since the last call, and whether the second did.
    fn were_asked(&self) -> (bool, bool) {
        let (first, second) = self.asked();
        (first > 0, second > 0)
    }

    // Grows the bytes, as their only owner, and compares which heaps got requests.
    fn grow(&self, rt: &impl Abort, bytes: ByteBuffer<Heap<'_>>, wanted: (bool, bool)) {
        let mut growing = bytes.into_mut().expect(rt, "memory");
        let before = growing.len();
        growing.push_n(b'!', 1000).expect(rt, "room");
        equal(rt, growing.len(), before + 1000);
        equal(rt, self.were_asked(), wanted);
        drop(growing);
    }
}

fn from_string_asks(rt: &impl Abort, heaps: &Heaps) {
    let hello = String::from_str(&heaps.first, "hello").expect(rt, "memory");
    heaps.asked();
    let text = BufferString::from_string(&heaps.second, hello).expect(rt, "memory");
    equal(rt, heaps.asked(), (0, 1));
    let twin = text.clone().expect(rt, "an owner");
    equal(rt, heaps.asked(), (0, 0));
    // A shared text is copied to the given heap. The storage of a text with one owner grows in the
    // heap that it came from.
    heaps.grow(rt, twin.into_inner(), (false, true));
    heaps.grow(rt, text.into_inner(), (true, false));
}

#[test]
fn a_text_made_of_a_string_asks_the_heap_that_is_handed_in(rt: HostRuntime) {
    from_string_asks(&rt, &Heaps::new(rt.alloc()));
}

/// Bytes of the first heap, of which five can be copied.
fn bytes<'a>(rt: &impl Abort, heaps: &'a Heaps) -> ByteBuffer<Heap<'a>> {
    let bytes = Buffer::copy_from(&heaps.first, b"hello, world").expect(rt, "memory");
    heaps.asked();
    bytes
}

fn copies_ask(rt: &impl Abort, heaps: &Heaps) {
    let mut bytes = bytes(rt, heaps);
    holds(rt, bytes.can_advance(5));
    let made = bytes.copy_to_aligned(&heaps.second, 5, Alignment::new(16));
    let copy = made.expect(rt, "memory");
    equal(rt, heaps.were_asked(), (false, true));
    drop(copy.clone().expect(rt, "an owner"));
    equal(rt, heaps.asked(), (0, 0));
    heaps.grow(rt, copy, (false, true));
    heaps.grow(rt, bytes, (true, false));
}

fn fixed_copies_ask(rt: &impl Abort, heaps: &Heaps) {
    let mut bytes = bytes(rt, heaps);
    holds(rt, bytes.can_advance(5));
    let made = copy_to_const_aligned::<1024, _, _>(&mut bytes, &heaps.second, 5);
    let copy = made.expect(rt, "memory");
    equal(rt, heaps.were_asked(), (false, true));
    drop(copy.clone().expect(rt, "an owner"));
    equal(rt, heaps.asked(), (0, 0));
    heaps.grow(rt, copy.into_inner(), (false, true));
    drop(bytes);
}

#[test]
fn copies_ask_the_heap_that_is_handed_in(rt: HostRuntime) {
    let heaps = Heaps::new(rt.alloc());
    copies_ask(&rt, &heaps);
    fixed_copies_ask(&rt, &heaps);
    drop(heaps);
}
