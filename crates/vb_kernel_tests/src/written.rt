//! What each comparison writes, and which bits it leaves.
ghost use Rattle.std.specs.Prelude.{IsTrue};

use std::process::Abort;
use vb_bits::get_bit;
use vb_compare::Comparison;

/// The condition holds.
pub(crate) fn holds(rt: &impl Abort, condition: bool)
    ensures { IsTrue condition }
{
    assert!(rt; condition);
}

/// Each comparison.
pub(crate) const ALL: [Comparison; 6] = [
    Comparison::Equal,
    Comparison::NotEqual,
    Comparison::Less,
    Comparison::LessOrEqual,
    Comparison::Greater,
    Comparison::GreaterOrEqual,
];

/// The number of bytes that hold the longest window at any offset.
pub(crate) const ROOM: usize = 150;

/// What each byte is before a comparison writes to it.
pub(crate) const STALE: u8 = 0x5A;

/// Pairs of values that are compared.
pub(crate) trait Pairs {
    /// The result of the comparison for pair `k`, if there is one.
    fn answer(&self, k: usize) -> Option<bool>;
}

/// The `len` bits from bit `offset` on are the answers of `pairs`, and the bits before and after
/// them are those of [`STALE`].
pub(crate) fn are_written(
    rt: &impl Abort,
    out: &[u8],
    (offset, len): (usize, usize),
    pairs: &impl Pairs,
) {
    let end = offset.saturating_add(len).saturating_add(16);
    for i in 0..end.min(8 * out.len().min(ROOM)) {
        let stale = (STALE >> (i % 8)) & 1 == 1;
        let wanted = match i.checked_sub(offset) {
            Some(k) => pairs.answer(k).unwrap_or(stale),
            None => stale,
        };
        assert!(rt; get_bit(out, i) == wanted);
    }
}
