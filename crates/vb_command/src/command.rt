//! The command of a line.

use crate::mode::Mode;
use std::alloc::{Allocator, Global};

/// A command over slots of bit sets. There is one variant for each kind of line, with the fields of
/// the line in their order.
///
/// Slots, indices and lengths in bits are any numbers of 64 bits. A slot above 15 can be part of a
/// command, which is then refused.
#[derive(Debug, Drop)]
pub enum Command<A: Allocator = Global> {
    /// `import t o n HEX`: fills slot `t`, which must be empty, with an open set of `n` bits of the
    /// bytes, from bit `o` of the first byte on, least significant bit first. `o` must be below 8,
    /// and all bits must be in bounds of the bytes.
    Import(usize, usize, usize, Vec<u8, A>),
    /// `full t v n`: fills slot `t`, which must be empty, with an open set of `n` bits `v`.
    Full(usize, bool, usize),
    /// `indices t n NUMBERS`: fills slot `t`, which must be empty, with an open set of `n` bits
    /// that is true exactly at these indices. All of them must be below `n`.
    Indices(usize, usize, Vec<usize, A>),
    /// `set k i v`: sets bit `i`, which must be below the length, of the open set in slot `k` to
    /// `v`.
    Set(usize, usize, bool),
    /// `append k v`: appends a bit `v` to the open set in slot `k`.
    Append(usize, bool),
    /// `appendn k v n`: appends `n` bits `v` to the open set in slot `k`.
    Appendn(usize, bool, usize),
    /// `appendset k j`: appends the bits of the frozen set in slot `j` to the open set in slot `k`.
    Appendset(usize, usize),
    /// `fill k a b v`: sets bits `a..b` of the open set in slot `k` to `v`. They must be a range of
    /// the set.
    Fill(usize, usize, usize, bool),
    /// `truncate k n`: removes all bits after the first `n` from the open set in slot `k`; removes
    /// none if it has at most `n`.
    Truncate(usize, usize),
    /// `clear k`: removes all bits from the open set in slot `k`.
    Clear(usize),
    /// `flip k`: negates every bit of the open set in slot `k`.
    Flip(usize),
    /// `freeze k`: converts the open set in slot `k` to a frozen one.
    Freeze(usize),
    /// `thaw k`: converts the frozen set in slot `k` to an open one.
    Thaw(usize),
    /// `clone k t`: fills slot `t`, which must be empty, with a copy of the set in slot `k`, open
    /// or frozen as that set is.
    Clone(usize, usize),
    /// `slice k a b t`: fills slot `t`, which must be empty, with a frozen set of bits `a..b` of
    /// the frozen set in slot `k`. They must be a range of that set.
    Slice(usize, usize, usize, usize),
    /// `sliced k t`: fills slot `t`, which must be empty, with a frozen set of the same bits as the
    /// frozen set in slot `k`. The new set has only the bytes of these bits.
    Sliced(usize, usize),
    /// `drop k`: empties slot `k`, which must hold a set.
    Drop(usize),
    /// `and MODE l r t`: fills slot `t` with a frozen set of the bits that are true in both of the
    /// frozen sets in slots `l` and `r`, which must have the same length. With `own` slot `l`
    /// releases its set: `r` must be another slot, and `t` may be `l`. Otherwise `t` must be empty.
    And(Mode, usize, usize, usize),
    /// `or MODE l r t`: like `and`, with the bits that are true in at least one of the sets.
    Or(Mode, usize, usize, usize),
    /// `xor MODE l r t`: like `and`, with the bits that are true in exactly one of the sets.
    Xor(Mode, usize, usize, usize),
    /// `andnot MODE l r t`: like `and`, with the bits that are true in the left set and false in
    /// the right one.
    Andnot(Mode, usize, usize, usize),
    /// `not MODE l t`: fills slot `t` with a frozen set of the negated bits of the frozen set in
    /// slot `l`. With `own` that slot releases its set, and `t` may be `l`. Otherwise `t` must be
    /// empty.
    Not(Mode, usize, usize),
    /// `take k t m INDEXES`: fills slot `t`, which must be empty, with a frozen set of the bits of
    /// the frozen set in slot `k` at these indices, one for each. `m` is `-` or the slot of a
    /// frozen set with one bit for each index. Where that bit is false, the new bit is false and
    /// the index is ignored. Every other index must be in range.
    Take(usize, usize, Option<usize>, Vec<i64, A>),
    /// `len k`: the length in bits of the set in slot `k`.
    Len(usize),
    /// `count k`: the number of true bits of the set in slot `k`.
    Count(usize),
    /// `get k i`: the bit at index `i`, which must be below the length, of the set in slot `k`.
    Get(usize, usize),
    /// `countrange k a b`: the number of true bits among bits `a..b` of the set in slot `k`. They
    /// must be a range of the set.
    Countrange(usize, usize, usize),
    /// `select k n`: the index of the true bit with `n` true bits before it in the set in slot `k`,
    /// if there is one.
    Select(usize, usize),
    /// `selectunset k n`: the index of the false bit with `n` false bits before it in the set in
    /// slot `k`, if there is one.
    Selectunset(usize, usize),
    /// `last k`: the index of the last true bit of the set in slot `k`, if there is one.
    Last(usize),
    /// `bits k`: the bits of the set in slot `k`.
    Bits(usize),
    /// `places k`: the indices of the true bits of the set in slot `k`, in ascending order.
    Places(usize),
    /// `runs k`: the runs of true bits of the set in slot `k`, from the start to the end.
    Runs(usize),
    /// `show k`: the length and the first bits of the frozen set in slot `k`, as its `Display`
    /// prints them.
    Show(usize),
    /// `eq k j`: whether the sets in slots `k` and `j`, open or frozen, have the same bits.
    Eq(usize, usize),
}
