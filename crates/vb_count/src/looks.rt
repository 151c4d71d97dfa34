//! The looks at a window: a bound on their number, and the bits that each look reads.
ghost use Rattle.std.specs.Prelude.{◌≡◌, ℕ, ◌+◌, ◌-◌, ◌/◌, ◌%◌, ◌^◌, ◌<◌, ◌≤◌, min};
ghost use Rattle.vb_count.specs.Looks.{looks, IsLook, IsWholeLook};

/// Returns `len / 512 + 16`, an upper bound on the looks that
/// [`count_ones_by`](crate::count_ones_by), `bit_select_by` or `bit_select_unset_by` makes over
/// `len` bits, at any offset. A look is one read of a chunk of 64 bytes, of a word of eight, or of
/// a byte.
///
/// The bits hold at most `len / 512` whole chunks, and outside of these at most seven words, seven
/// bytes, and a partial first and last byte. Up to 512 bits take at most 16 looks.
pub fn most_looks(len: usize) -> usize
    ensures value { result ≡ len / 512 + 16 }
    ensures most { (offset : ℕ) → looks offset len ≤ result }
    ensures short { len ≤ 512 → (offset : ℕ) → looks offset len ≤ 16 }
{
    len / 512 + 16
}

/// Returns the number of bits that the first look reads, if the `len` bits from bit `at` on are
/// read from front to back. The look reads the bits of a partial first byte. If there is none, it
/// reads the largest of a chunk, a word or a byte that the bits fill, or all of them if they fill
/// none. The caller must prove that `len` isn't 0.
///
/// A count by such looks, one part after another, makes the same number of looks as
/// [`count_ones_by`](crate::count_ones_by).
pub fn first_look(at: usize, len: usize) -> usize
    requires some { 0 < len }
    ensures look { IsLook at result }
    ensures within { result ≤ len }
    ensures head { 0 < at % 8 → result ≡ min len (8 - at % 8) }
    ensures whole { at % 8 ≡ 0 → IsWholeLook len result }
    ensures one { (n : ℕ) → result ≤ n → n ≤ len
        → looks at n ≡ 1 + looks (at + result) (n - result) }
{
    let head = (8 - at % 8) % 8;
    if head > 0 {
        len.min(head)
    } else {
        whole_look(len)
    }
}

/// Returns the number of bits that the first look reads, if the `len` bits from bit `offset` on are
/// read from back to front: those of a partial last byte, or if there is none, the number that
/// [`first_look`] returns at a byte boundary. The caller must prove that `len` isn't 0 and that
/// `offset + len` fits in a `usize`.
pub fn last_look(offset: usize, len: usize) -> usize
    requires some { 0 < len }
    requires fits { offset + len < 2 ^ 64 }
    ensures look { IsLook (offset + (len - result)) result }
    ensures within { result ≤ len }
    ensures one { (p : ℕ) → p + result ≤ len
        → looks (offset + p) (len - p) ≡ 1 + looks (offset + p) (len - result - p) }
{
    let tail = (offset + len) % 8;
    if tail > 0 {
        len.min(tail)
    } else {
        whole_look(len)
    }
}

/// Returns the number of bits that one look from a byte boundary on reads, of `len` bits.
fn whole_look(len: usize) -> usize
    ensures { IsWholeLook len result }
{
    if len >= 512 {
        512
    } else if len >= 64 {
        64
    } else {
        len.min(8)
    }
}
