//! The outbox as it was when each piece of an answer was written separately: a number, a comma, a
//! dash, a line feed. Sessions are compared with it, since no contract says how wide a write is. It
//! formats answers with code of its own, and not with the code under test.
ghost use Rattle.std.specs.Prelude.{◌≡◌, ◌+◌, ◌≤◌, [], length, vec_capacity, OnOk};

use itoa::Buffer;
use std::alloc::{AllocError, Global};
use std::marker::Model;
use vb_command::{Answer, Refusal};
use vb_script::{Fault, Sink};

/// How many bytes wait at most.
const ROOM: usize = 65536;

/// The text of the answers that waits to be written.
#[derive(Drop)]
pub(crate) struct OneByOne {
    bytes: Vec<u8>,
}

impl Model for OneByOne {
    ghost use Rattle.std.specs.Prelude.{ℕ, List, ◌≤◌, length, vec_capacity};

    ghost Value = { List ℕ };

    ghost view = { λ o. o.bytes.items };

    ghost invariant = { λ o. (length o.bytes.items ≤ 65536) × (65536 ≤ vec_capacity o.bytes) };
}

impl OneByOne {
    /// No answers, and a buffer for them.
    pub(crate) fn new(alloc: Global) -> Result<Self, AllocError> {
        Ok(OneByOne {
            bytes: Vec::with_capacity(alloc, ROOM)?,
        })
    }

    /// Adds the line of an answer.
    pub(crate) fn push<W: Sink>(&mut self, answer: &Answer, output: &mut W) -> Result<(), Fault> {
        match answer {
            Answer::Done => self.put(b"ok", output)?,
            Answer::Number(n) => self.put_number(*n, output)?,
            Answer::Truth(true) => self.put(b"1", output)?,
            Answer::Truth(false) => self.put(b"0", output)?,
            Answer::Place(None) => self.put(b"none", output)?,
            Answer::Place(Some(place)) => self.put_number(*place, output)?,
            Answer::Bits(bits) => self.put_bits(bits, output)?,
            Answer::Places(places) => self.put_places(places, output)?,
            Answer::Runs(runs) => self.put_runs(runs, output)?,
            Answer::Text(text) => self.put(text.as_bytes(), output)?,
            Answer::Refused(why) => self.put_refusal(*why, output)?,
        }
        self.put(b"\n", output)
    }

    /// Adds a refusal, and the position that it names.
    fn put_refusal<W: Sink>(&mut self, why: Refusal, output: &mut W) -> Result<(), Fault> {
        match why {
            Refusal::BadSlot => self.put(b"refused BadSlot", output),
            Refusal::BadWindow => self.put(b"refused BadWindow", output),
            Refusal::OutOfRange => self.put(b"refused OutOfRange", output),
            Refusal::LengthMismatch => self.put(b"refused LengthMismatch", output),
            Refusal::TakeOutOfRange(position) => {
                self.put(b"refused TakeOutOfRange ", output)?;
                self.put_number(position, output)
            }
            Refusal::TooManyBits => self.put(b"refused TooManyBits", output),
            Refusal::OutOfMemory => self.put(b"refused OutOfMemory", output),
        }
    }

    /// Adds a number in decimal.
    fn put_number<W: Sink>(&mut self, n: usize, output: &mut W) -> Result<(), Fault> {
        let mut digits = Buffer::new();
        self.put(digits.format(n).as_bytes(), output)
    }

    /// Adds indices separated by commas.
    fn put_places<W: Sink>(&mut self, places: &[usize], output: &mut W) -> Result<(), Fault> {
        let [first, rest @ ..] = places else {
            return self.put(b"-", output);
        };
        self.put_number(*first, output)?;
        for place in rest {
            self.put(b",", output)?;
            self.put_number(*place, output)?;
        }
        Ok(())
    }

    /// Adds runs separated by commas.
    fn put_runs<W: Sink>(&mut self, runs: &[(usize, usize)], output: &mut W) -> Result<(), Fault> {
        let [first, rest @ ..] = runs else {
            return self.put(b"-", output);
        };
        self.put_run(*first, output)?;
        for run in rest {
            self.put(b",", output)?;
            self.put_run(*run, output)?;
        }
        Ok(())
    }

    /// Adds a run: where it begins, and the index after its end.
    fn put_run<W: Sink>(&mut self, run: (usize, usize), output: &mut W) -> Result<(), Fault> {
        let (start, end) = run;
        self.put_number(start, output)?;
        self.put(b"-", output)?;
        self.put_number(end, output)
    }

    /// Adds truth values as binary digits.
    fn put_bits<W: Sink>(&mut self, bits: &[bool], output: &mut W) -> Result<(), Fault> {
        if bits.is_empty() {
            return self.put(b"-", output);
        }
        let mut start = 0;
        while start < bits.len() {
            let end = start + ROOM.min(bits.len() - start);
            self.put_block(&bits[start..end], output)?;
            start = end;
        }
        Ok(())
    }

    /// Adds truth values as binary digits, no more than the buffer holds. If they don't fit behind
    /// what waits, writes that first.
    fn put_block<W: Sink>(&mut self, bits: &[bool], output: &mut W) -> Result<(), Fault>
        requires { length bits.now ≤ 65536 }
    {
        if bits.len() > ROOM - self.bytes.len() {
            self.flush(output)?;
        }
        push_digits(&mut self.bytes, bits);
        Ok(())
    }

    /// Adds bytes. If they don't fit behind what waits, writes that first.
    fn put<W: Sink>(&mut self, bytes: &[u8], output: &mut W) -> Result<(), Fault> {
        if bytes.len() > ROOM - self.bytes.len() {
            self.flush(output)?;
        }
        if bytes.len() > ROOM {
            return output.write(bytes);
        }
        self.bytes.extend_from_slice(bytes).unwrap();
        Ok(())
    }

    /// Writes all that waits.
    pub(crate) fn flush<W: Sink>(&mut self, output: &mut W) -> Result<(), Fault>
        ensures { OnOk result (self.new ≡ []) }
    {
        if self.bytes.is_empty() {
            return Ok(());
        }
        output.write(&self.bytes)?;
        self.bytes.clear();
        Ok(())
    }
}

/// Adds truth values as binary digits to bytes that have the capacity.
fn push_digits(bytes: &mut Vec<u8>, bits: &[bool])
    requires { length bytes.old.items + length bits.now ≤ vec_capacity bytes.old }
    ensures len { length bytes.new.items ≡ length bytes.old.items + length bits.now }
    ensures room { vec_capacity bytes.old ≤ vec_capacity bytes.new }
{
    let len = bytes.len();
    bytes.resize(len + bits.len(), 0).unwrap();
    write_digits(&mut bytes[len..], bits);
}

/// Sets each byte to the code of the binary digit of its truth value.
fn write_digits(bytes: &mut [u8], bits: &[bool])
    requires { length bytes.old ≡ length bits.now }
{
    for k in 0..bits.len() {
        bytes[k] = digit_byte(bits[k]);
    }
}

/// The code of a truth value's binary digit.
fn digit_byte(bit: bool) -> u8 {
    if bit { b'1' } else { b'0' }
}
