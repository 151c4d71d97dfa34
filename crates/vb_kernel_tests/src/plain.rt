//! Counting, selecting and combining bit by bit, as the definitions say it.
ghost use Rattle.std.specs.Prelude.{◌≡◌, ◌+◌, ◌*◌, ◌^◌, ◌<◌, ◌≤◌, length};
ghost use Rattle.vb_bits.specs.InBytes.{InBytes};
ghost use Rattle.vb_bits.specs.Bits.{bits, count, complement, Selects};

use vb_kernel::{BitOp, get_bit};

/// What an operator makes of two bits.
pub(crate) fn combined_bit(op: BitOp, left: bool, right: bool) -> bool {
    match op {
        BitOp::And => left && right,
        BitOp::Or => left || right,
        BitOp::Xor => left != right,
        BitOp::AndNot => left && !right,
    }
}

/// How many bits of the window are true.
#[tactic(auto, using(vb_bits::proofs::BitsLemmas::windows))]
pub(crate) fn count_ones(bytes: &[u8], offset: usize, len: usize) -> usize
    requires window { InBytes bytes.now offset len }
    ensures { result ≡ count (bits bytes.now offset len) }
{
    let mut ones = 0;
    for i in 0..len {
        if get_bit(bytes, offset + i) {
            ones += 1;
        }
    }
    ones
}

/// The index of the `n`-th true bit of the window.
#[tactic(auto, using(vb_bits::proofs::BitsLemmas::windows))]
pub(crate) fn bit_select(bytes: &[u8], offset: usize, len: usize, n: usize) -> Option<usize>
    requires window { InBytes bytes.now offset len }
    ensures { Selects (bits bytes.now offset len) n result }
{
    let mut left = n;
    for i in 0..len {
        if get_bit(bytes, offset + i) {
            if left == 0 {
                return Some(i);
            }
            left -= 1;
        }
    }
    None
}

/// The index of the `n`-th false bit of the window.
#[tactic(auto, using(vb_bits::proofs::BitsLemmas::windows))]
pub(crate) fn bit_select_unset(bytes: &[u8], offset: usize, len: usize, n: usize) -> Option<usize>
    requires window { InBytes bytes.now offset len }
    ensures { Selects (complement (bits bytes.now offset len)) n result }
{
    let mut left = n;
    for i in 0..len {
        if !get_bit(bytes, offset + i) {
            if left == 0 {
                return Some(i);
            }
            left -= 1;
        }
    }
    None
}

/// The index of the first bit from index `from` on that is `value`.
pub(crate) fn next_match(
    bytes: &[u8],
    offset: usize,
    len: usize,
    from: usize,
    value: bool,
) -> Option<usize>
    requires window { InBytes bytes.now offset len }
{
    for i in from..len {
        if get_bit(bytes, offset + i) == value {
            return Some(i);
        }
    }
    None
}

/// The index of the last bit before index `before` that is `value`.
pub(crate) fn previous_match(
    bytes: &[u8],
    offset: usize,
    len: usize,
    before: usize,
    value: bool,
) -> Option<usize>
    requires window { InBytes bytes.now offset len }
{
    let mut place = None;
    for i in 0..before.min(len) {
        if get_bit(bytes, offset + i) == value {
            place = Some(i);
        }
    }
    place
}
