//! A text and its buffer feed a hasher the same bytes.
ghost use Rattle.std.specs.Prelude.{◌≡◌};
ghost use Rattle.std.specs.Hash as fed;
ghost use Rattle.std.specs.List.{fold};

use std::alloc::Allocator;
use std::hash::{Hash, Hasher};
use vortex_buffer::{BufferString, ByteBuffer};

/// Feeds a hasher a text: the number of its bytes, and the bytes.
pub fn feed_text<A: Allocator, H: Hasher>(text: &BufferString<A>, state: &mut H)
    ensures { state.new ≡ fold H.write state.old (fed.slice fed.u8 text.now.list) }
{
    text.hash(state);
}

/// Feeds a hasher a buffer. The clause is that of [`feed_text`].
pub fn feed_bytes<A: Allocator, H: Hasher>(bytes: &ByteBuffer<A>, state: &mut H)
    ensures { state.new ≡ fold H.write state.old (fed.slice fed.u8 bytes.now.list) }
{
    bytes.hash(state);
}
