//! Bytes that were read and not yet used.
ghost use Rattle.std.specs.Prelude.{◌≡◌, ℕ, ◌+◌, ◌-◌, ◌^◌, ◌<◌, ◌≤◌, ◌==◌, List, [], length, take};
ghost use Rattle.std.specs.Prelude.{drop, position, slice_range, IfErr, IfOk, OnErr, OnOk};
ghost use Rattle.std.specs.Io.KnownBytes.{prepend_known, IsAtEnd, Keeps};
ghost use Rattle.std.specs.List.{position_or_len};
ghost use Rattle.vb_script.specs.DriveError.{FailsReads, FailsReading};
ghost use Rattle.vb_script.specs.Fault.{CountsFault};
ghost use Rattle.vb_script.specs.Feed.{FeedsMore};

use crate::error::DriveError;
use crate::fault::Fault;
use crate::source::Source;
use memchr::memchr;
use std::alloc::{AllocError, Allocator};
use std::marker::Model;
use std::simd::prelude::*;

/// The first size of the buffer, in bytes.
const CHUNK: usize = 65536;

/// The number of bytes that are searched at once for a line feed.
const NEAR: usize = 32;

/// The bytes that were read and not yet used. Contracts see the list of them.
#[derive(Drop)]
pub(crate) struct Feed<A: Allocator> {
    /// The buffer for reads. All of its bytes are initialized.
    room: Vec<u8, A>,
    /// The number of bytes at the start that were used.
    start: usize,
    /// The number of bytes at the start that were read.
    end: usize,
    /// The number of bytes from `start` on that are known not to be line feeds, so that no byte is
    /// searched twice.
    searched: usize,
}

impl<A: Allocator> Model for Feed<A> {
    ghost use Rattle.std.specs.Prelude.{ℕ, List, take, drop, ◌≤◌, ◌==◌, length};
    ghost use Rattle.std.specs.List.{position_or_len};

    ghost Value = { List ℕ };

    ghost view = { λ f. drop f.start (take f.end f.room.items) };

    ghost invariant = { λ f. (f.start ≤ f.end) × (f.end ≤ length f.room.items)
        × (f.searched ≤ position_or_len (λ b. b == 10) (drop f.start (take f.end f.room.items))) };
}

impl<A: Allocator> Feed<A> {
    /// Returns a feed without bytes. Does not allocate.
    pub(crate) fn new(alloc: A) -> Self
        ensures { result ≡ [] }
    {
        Feed {
            room: Vec::new(alloc),
            start: 0,
            end: 0,
            searched: 0,
        }
    }

    /// Returns all the bytes.
    #[tactic(auto, using(crate::proofs::Parts::parts))]
    pub(crate) fn as_slice(&self) -> &[u8]
        ensures { result.now ≡ self.now }
    {
        &self.room[self.start..self.end]
    }

    /// Returns the index of the first line feed, if there is one.
    #[tactic(auto, using(crate::proofs::Parts::parts))]
    pub(crate) fn line_feed(&mut self) -> Option<usize>
        ensures place { result ≡ position (λ b. b == 10) self.old }
        ensures same { self.new ≡ self.old }
    {
        let bytes = &self.room[self.start..self.end];
        match line_feed_from(bytes, self.searched) {
            Some(at) => Some(at),
            None => {
                self.searched = bytes.len();
                None
            }
        }
    }

    /// Removes the first `n` bytes, which the caller must prove to be there.
    #[tactic(auto, using(crate::proofs::Parts::parts))]
    pub(crate) fn consume(&mut self, n: usize)
        requires { n ≤ length self.old }
        ensures { self.new ≡ drop n self.old }
    {
        self.start += n;
        self.searched = 0;
    }

    /// Reads once and returns whether more bytes came; none come at the end of the input.
    ///
    /// First reuses the space of the bytes that were removed. If none is left, doubles the buffer
    /// before the read, so that no byte is lost if memory runs out. Returns `Read` if the read
    /// fails and `Memory` if memory runs out.
    #[tactic(auto, using(crate::proofs::Parts::filled))]
    pub(crate) fn fill<R: Source>(&mut self, input: &mut R) -> Result<bool, DriveError>
        ensures kept { Keeps
            (prepend_known self.old (R.remaining input.old))
            (prepend_known self.new (R.remaining input.new)) }
        ensures fills { IfOk result (λ more. FeedsMore self.old self.new
            (R.remaining input.new) more) }
        ensures err { IfErr result (λ why. FailsReading why (self.new ≡ self.old)) }
        ensures reads { FailsReads result (R.faults input.old) (R.faults input.new) }
    {
        move_to_front(&mut self.room, self.start, self.end);
        self.end -= self.start;
        self.start = 0;
        leave_room(&mut self.room, self.end).map_err(|_| DriveError::Memory)?;
        let Ok(count) = read_behind(&mut self.room, self.end, input) else {
            return Err(DriveError::Read);
        };
        self.end += count;
        Ok(count > 0)
    }
}

/// Returns the index of the first line feed. The caller must prove that there is none among the
/// first `searched` bytes.
#[tactic(auto, using(crate::proofs::Searches::searches))]
fn line_feed_from(bytes: &[u8], searched: usize) -> Option<usize>
    requires { searched ≤ position_or_len (λ b. b == 10) bytes.now }
    ensures { result ≡ position (λ b. b == 10) bytes.now }
{
    let (_, rest) = bytes.split_at(searched);
    match line_feed(rest) {
        Some(at) => Some(searched + at),
        None => None,
    }
}

/// Returns the index of the first line feed. Most lines are short, so it first searches a few bytes
/// at once.
#[tactic(auto, using(crate::proofs::Searches::first_byte))]
fn line_feed(bytes: &[u8]) -> Option<usize>
    ensures { result ≡ position (λ b. b == 10) bytes.now }
{
    if bytes.len() >= NEAR {
        let at = line_feed_near(bytes);
        if at < NEAR {
            return Some(at);
        }
    }
    memchr(b'\n', bytes)
}

/// Returns the index of the first line feed among the first `NEAR` bytes, or `NEAR` if there is
/// none.
#[inline(always)]
fn line_feed_near(bytes: &[u8]) -> usize
    requires { NEAR ≤ length bytes.now }
    ensures { result ≡ position_or_len (λ b. b == 10) (take NEAR bytes.now) }
{
    let found = u8x32::from_slice(bytes)
        .simd_eq(u8x32::splat(b'\n'))
        .to_bitmask();
    if found == 0 {
        NEAR
    } else {
        found.trailing_zeros() as usize
    }
}

/// Moves the bytes `start..end` to the start of the buffer.
#[tactic(auto, using(crate::proofs::Parts::parts))]
fn move_to_front<A: Allocator>(room: &mut Vec<u8, A>, start: usize, end: usize)
    requires order { start ≤ end }
    requires within { end ≤ length room.old.items }
    ensures moved { take (end - start) room.new.items ≡ drop start (take end room.old.items) }
    ensures len { length room.new.items ≡ length room.old.items }
{
    if start > 0 {
        room.copy_within(start..end, 0);
    }
}

/// Doubles the buffer, or makes the first one, if the first `end` bytes fill it.
fn leave_room<A: Allocator>(room: &mut Vec<u8, A>, end: usize) -> Result<(), AllocError>
    requires { end ≤ length room.old.items }
    ensures left { OnOk result (end < length room.new.items) }
    ensures kept { take end room.new.items ≡ take end room.old.items }
    ensures len { length room.old.items ≤ length room.new.items }
{
    let len = room.len();
    if end < len {
        return Ok(());
    }
    room.resize(len.saturating_add(len.max(CHUNK)), 0)
}

/// Reads once into the buffer after the first `end` bytes, and returns the number of bytes that
/// came.
fn read_behind<R: Source>(room: &mut [u8], end: usize, input: &mut R) -> Result<usize, Fault>
    requires { end < length room.old }
    ensures front { take end room.new ≡ take end room.old }
    ensures len { length room.new ≡ length room.old }
    ensures within { IfOk result (λ count. end + count ≤ length room.new) }
    ensures kept { IfOk result (λ count. Keeps
        (prepend_known (take end room.old) (R.remaining input.old))
        (prepend_known (take (end + count) room.new) (R.remaining input.new))) }
    ensures end { IfOk result (λ count. count ≡ 0 → IsAtEnd (R.remaining input.new)) }
    ensures err { OnErr result (Keeps (R.remaining input.old) (R.remaining input.new)) }
    ensures reads { CountsFault result (R.faults input.old) (R.faults input.new) }
{
    input.read(&mut room[end..])
}
