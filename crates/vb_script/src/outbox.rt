//! Answers that wait to be written.
ghost use Rattle.std.specs.Prelude.{◌≡◌, ℕ, ◌≤◌, [], ◌∷◌, length, take, vec_capacity};
ghost use Rattle.std.specs.Prelude.{◌++◌, decimal, IfOk, OnOk};
ghost use Rattle.std.specs.Io.KnownBytes.{Appends};
ghost use Rattle.std.specs.List.{flat_map};
ghost use Rattle.vb_command.specs.Printed.{digit_of, line_of};
ghost use Rattle.vb_command.specs.Views.{reply};
ghost use Rattle.vb_script.specs.Fault.{CountsFault};
ghost use Rattle.vb_script.specs.Outbox.{Adds};

use crate::fault::Fault;
use crate::sink::Sink;
use crate::write::{
    write_bit_codes, write_byte_and_number, write_bytes, write_line, write_number_line,
};
use itoa::Buffer;
use std::alloc::{AllocError, Allocator};
use std::marker::Model;
use vb_command::{Answer, Printer};

/// The greatest number of bytes that wait.
const LIMIT: usize = 65536;

/// The least length of the buffer once it has grown.
const FIRST_ROOM: usize = 1024;

/// The greatest number of bytes of a number in decimal and one more byte.
const PIECE: usize = 21;

/// The text of the answers that wait to be written. Contracts see its bytes.
///
/// It allocates all its memory at the start, and none for an answer: before a text that no longer
/// fits, it writes the text that waits.
#[derive(Drop)]
pub(crate) struct Outbox<A: Allocator> {
    /// The buffer for answers. All of its bytes are initialized, so that a store needs no test of a
    /// capacity. It grows up to `LIMIT`, within the memory that it has.
    room: Vec<u8, A>,
    /// The number of bytes at the start that wait.
    end: usize,
}

impl<A: Allocator> Model for Outbox<A> {
    ghost use Rattle.std.specs.Prelude.{ℕ, List, ◌≤◌, length, take, vec_capacity};
    ghost use Rattle.vb_script.specs.declared.outbox.TheConstants.{LIMIT};

    ghost Value = { List ℕ };

    ghost view = { λ o. take o.end o.room.items };

    ghost invariant = { λ o. (o.end ≤ length o.room.items) × (length o.room.items ≤ LIMIT)
        × (LIMIT ≤ vec_capacity o.room) };
}

impl<A: Allocator> Outbox<A> {
    /// Returns an outbox without answers, and allocates its memory.
    pub(crate) fn new(alloc: A) -> Result<Self, AllocError>
        ensures { IfOk result (λ out. out ≡ []) }
    {
        Ok(Outbox {
            room: Vec::with_capacity(alloc, LIMIT)?,
            end: 0,
        })
    }

    /// Appends the line of an answer.
    pub(crate) fn push<W: Sink>(&mut self, answer: &Answer<A>, output: &mut W) -> Result<(), Fault>
        ensures { Adds (line_of (reply answer.now)) result
            (W.contents output.old) self.old (W.contents output.new) self.new
            (W.faults output.old) (W.faults output.new) }
    {
        answer.print(self, output)
    }

    /// Appends at most `LIMIT` truth values as binary digits. First writes the bytes that wait if
    /// all together are more than `LIMIT`.
    #[tactic(auto, using(crate::proofs::KnownBytes::known_bytes))]
    fn put_block<W: Sink>(&mut self, bits: &[bool], output: &mut W) -> Result<(), Fault>
        requires { length bits.now ≤ LIMIT }
        ensures { Adds (flat_map digit_of bits.now) result
            (W.contents output.old) self.old (W.contents output.new) self.new
            (W.faults output.old) (W.faults output.new) }
    {
        if bits.len() > LIMIT - self.end {
            self.flush(output)?;
        }
        lengthen(&mut self.room, self.end + bits.len());
        self.end = write_bit_codes(&mut self.room, self.end, bits);
        Ok(())
    }

    /// Appends bytes. First writes the bytes that wait if all together are more than `LIMIT`.
    #[tactic(auto, using(crate::proofs::KnownBytes::known_bytes))]
    fn put<W: Sink>(&mut self, bytes: &[u8], output: &mut W) -> Result<(), Fault>
        ensures { Adds bytes.now result
            (W.contents output.old) self.old (W.contents output.new) self.new
            (W.faults output.old) (W.faults output.new) }
    {
        if bytes.len() > LIMIT - self.end {
            self.flush(output)?;
        }
        if bytes.len() > LIMIT {
            return output.write(bytes);
        }
        lengthen(&mut self.room, self.end + bytes.len());
        self.end = write_bytes(&mut self.room, self.end, bytes);
        Ok(())
    }

    /// Appends a byte and then a number in decimal, also if the buffer has no space for both. It is
    /// a separate function, so that the common case, a buffer with space, saves no registers for
    /// these calls.
    #[cold]
    #[inline(never)]
    fn put_behind_by_pieces<W: Sink>(
        &mut self,
        byte: u8,
        n: usize,
        output: &mut W,
    ) -> Result<(), Fault>
        ensures { Adds (byte ∷ decimal n) result
            (W.contents output.old) self.old (W.contents output.new) self.new
            (W.faults output.old) (W.faults output.new) }
    {
        self.put(&[byte], output)?;
        self.put_number(n, output)
    }

    /// Appends a number in decimal and then a line feed, also if the buffer has no space for both.
    /// It is a separate function for the same reason.
    #[cold]
    #[inline(never)]
    fn put_last_number_by_pieces<W: Sink>(&mut self, n: usize, output: &mut W) -> Result<(), Fault>
        ensures { Adds (decimal n ++ 10 ∷ []) result
            (W.contents output.old) self.old (W.contents output.new) self.new
            (W.faults output.old) (W.faults output.new) }
    {
        self.put_number(n, output)?;
        self.put_end(output)
    }

    /// Writes all bytes that wait.
    pub(crate) fn flush<W: Sink>(&mut self, output: &mut W) -> Result<(), Fault>
        ensures written { OnOk result
            (Appends (W.contents output.old) (W.contents output.new) self.old) }
        ensures empty { OnOk result (self.new ≡ []) }
        ensures writes { CountsFault result (W.faults output.old) (W.faults output.new) }
    {
        if self.end == 0 {
            return Ok(());
        }
        output.write(&self.room[..self.end])?;
        self.end = 0;
        Ok(())
    }
}

/// Each answer ends with a line feed.
impl<A: Allocator, W: Sink> Printer<W> for Outbox<A> {
    ghost use Rattle.vb_script.specs.Outbox.{Adds, Adds-nil, Adds-trans};

    type Error = Fault;

    ghost puts = { λ o w text r p x.
        Adds text r (W.contents w) o (W.contents x) p (W.faults w) (W.faults x) };

    ghost end = { 10 ∷ [] };

    ghost nothing = { λ o w. Adds-nil (W.contents w) o (W.faults w) };

    ghost joins = { λ o w front p x back r q y first next. Adds-trans (W.contents w) (W.contents x)
        (W.contents y) o p q front back (W.faults w) (W.faults x) (W.faults y) r first next };

    ghost fails = { λ _ _ _ _ _ _ _ failed. record { told = tt; writes = failed.writes } };

    fn put_words(&mut self, words: &str, output: &mut W) -> Result<(), Fault> {
        self.put(words.as_bytes(), output)
    }

    fn put_number(&mut self, n: usize, output: &mut W) -> Result<(), Fault> {
        let mut digits = Buffer::new();
        self.put(digits.format(n).as_bytes(), output)
    }

    #[tactic(auto, using(crate::proofs::KnownBytes::known_bytes, crate::proofs::Lengths::lengths))]
    fn put_behind(&mut self, byte: u8, n: usize, output: &mut W) -> Result<(), Fault> {
        if PIECE > self.room.len() - self.end {
            return self.put_behind_by_pieces(byte, n, output);
        }
        self.end = write_byte_and_number(&mut self.room, self.end, byte, n);
        Ok(())
    }

    fn put_digits(&mut self, bits: &[bool], output: &mut W) -> Result<(), Fault> {
        let mut start = 0;
        while start < bits.len() {
            let end = start + LIMIT.min(bits.len() - start);
            self.put_block(&bits[start..end], output)?;
            start = end;
        }
        Ok(())
    }

    fn put_end(&mut self, output: &mut W) -> Result<(), Fault> {
        self.put(b"\n", output)
    }

    /// It is inlined, so that words of a known length are stored directly and not copied by a call.
    #[inline(always)]
    #[tactic(auto, using(crate::proofs::KnownBytes::known_bytes))]
    fn put_last_words(&mut self, words: &str, output: &mut W) -> Result<(), Fault> {
        if words.len() >= self.room.len() - self.end {
            self.put_words(words, output)?;
            return self.put_end(output);
        }
        self.end = write_line(&mut self.room, self.end, words.as_bytes());
        Ok(())
    }

    #[tactic(auto, using(crate::proofs::KnownBytes::known_bytes, crate::proofs::Lengths::lengths))]
    fn put_last_number(&mut self, n: usize, output: &mut W) -> Result<(), Fault> {
        if PIECE > self.room.len() - self.end {
            return self.put_last_number_by_pieces(n, output);
        }
        self.end = write_number_line(&mut self.room, self.end, n);
        Ok(())
    }
}

/// Extends the buffer to at least `size` bytes, within its memory. If it grows, it gets at least
/// twice as long, or `LIMIT` bytes, so that it grows seldom.
fn lengthen<A: Allocator>(room: &mut Vec<u8, A>, size: usize)
    requires size { size ≤ LIMIT }
    requires most { length room.old.items ≤ LIMIT }
    requires memory { LIMIT ≤ vec_capacity room.old }
    ensures long { size ≤ length room.new.items }
    ensures most { length room.new.items ≤ LIMIT }
    ensures memory { LIMIT ≤ vec_capacity room.new }
    ensures kept { (end : ℕ) → end ≤ length room.old.items
        → take end room.new.items ≡ take end room.old.items }
{
    let len = room.len();
    if len < size {
        let more = size.max(2 * len).max(FIRST_ROOM).min(LIMIT);
        room.resize(more, 0).unwrap();
    }
}
