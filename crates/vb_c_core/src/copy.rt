//! Bits written to the bytes of a window: those of another window, or the digits of a word.
ghost use Rattle.std.specs.Prelude.{◌≡◌, ◌*◌, ◌≤◌, length};
ghost use Rattle.vb_bits.specs.Bits.{bits};
ghost use Rattle.vb_bits.specs.Digits.{digits};
ghost use Rattle.vb_bits.specs.InBytes.{InBytes};
ghost use Rattle.vb_bits.specs.Writes.{Writes};

/// Copies the `len` bits of `src` from bit `s` on to the bits of `dst` from bit `d` on. Both
/// windows must be in their bytes, and their ends must fit in a `usize`. Every other bit of `dst`
/// is unchanged.
///
/// Stores only the bytes of `dst` that have a bit of the window. The kernel, `copy_bits` of
/// `vb_bits`, stores whole words where its slice has space for them.
pub fn copy_to_window(dst: &mut [u8], d: usize, src: &[u8], s: usize, len: usize)
    requires into { InBytes dst.old d len }
    requires from { InBytes src.now s len }
    ensures { Writes dst.old dst.new d (bits src.now s len) }
{
    let end = (d + len).div_ceil(8);
    vb_bits::copy_bits(&mut dst[d / 8..end], d % 8, src, s, len);
}

/// Writes the `count` lowest digits of `word`, at most 64, to the bits of `dst` from bit `d` on.
/// They must be in the bytes, and their end must fit in a `usize`. Every other bit of `dst` is
/// unchanged, and only the bytes that have a bit of the window are stored.
pub fn write_to_window(dst: &mut [u8], d: usize, count: usize, word: u64)
    requires in_word { count ≤ 64 }
    requires into { InBytes dst.old d count }
    ensures { Writes dst.old dst.new d (digits word 0 count) }
{
    let end = (d + count).div_ceil(8);
    vb_bits::write_digits(&mut dst[d / 8..end], d % 8, count, word);
}

/// The number of bits that [`move_to_window`] copies at once.
const BLOCK_BITS: usize = 4096;

/// Copies the `len` bits from bit `s` on to the bits from bit `d` on of the same bytes, as if all
/// were read before one is written: the windows may overlap. Both must be in the bytes, and their
/// ends must fit in a `usize`. Every other bit is unchanged.
///
/// Copies 4,096 bits at a time by way of 512 bytes on the stack, from front to end if `d` is at
/// most `s`, else from end to front. Loads only the bytes that have a bit of one of the windows,
/// and stores only those of the window from bit `d` on.
pub fn move_to_window(bytes: &mut [u8], d: usize, s: usize, len: usize)
    requires into { InBytes bytes.old d len }
    requires from { InBytes bytes.old s len }
    ensures { Writes bytes.old bytes.new d (bits bytes.old s len) }
{
    if len <= 64 {
        move_by(&mut [0; 8], bytes, d, s, len);
    } else if d <= s {
        move_down(bytes, d, s, len);
    } else {
        move_up(bytes, d, s, len);
    }
}

/// Does [`move_to_window`] towards the front: moves the first block first.
fn move_down(bytes: &mut [u8], d: usize, s: usize, len: usize)
    requires down { d ≤ s }
    requires into { InBytes bytes.old d len }
    requires from { InBytes bytes.old s len }
    ensures { Writes bytes.old bytes.new d (bits bytes.old s len) }
{
    let mut block = [0; BLOCK_BITS / 8];
    let whole = len / BLOCK_BITS;
    for k in 0..whole {
        let done = BLOCK_BITS * k;
        move_by(&mut block, bytes, d + done, s + done, BLOCK_BITS);
    }
    let done = BLOCK_BITS * whole;
    move_by(&mut block, bytes, d + done, s + done, len - done);
}

/// Does [`move_to_window`] towards the end: moves the last block first.
fn move_up(bytes: &mut [u8], d: usize, s: usize, len: usize)
    requires up { s ≤ d }
    requires into { InBytes bytes.old d len }
    requires from { InBytes bytes.old s len }
    ensures { Writes bytes.old bytes.new d (bits bytes.old s len) }
{
    let mut block = [0; BLOCK_BITS / 8];
    let whole = len / BLOCK_BITS;
    let last = BLOCK_BITS * whole;
    move_by(&mut block, bytes, d + last, s + last, len - last);
    for k in 0..whole {
        let left = BLOCK_BITS * (whole - 1 - k);
        move_by(&mut block, bytes, d + left, s + left, BLOCK_BITS);
    }
}

/// Does [`move_to_window`] by way of the bytes of `block`, which must have space for the bits.
fn move_by(block: &mut [u8], bytes: &mut [u8], d: usize, s: usize, len: usize)
    requires few { len ≤ 8 * length block.old }
    requires into { InBytes bytes.old d len }
    requires from { InBytes bytes.old s len }
    ensures block { length block.new ≡ length block.old }
    ensures moved { Writes bytes.old bytes.new d (bits bytes.old s len) }
{
    let end = (s + len).div_ceil(8);
    vb_bits::copy_bits(block, 0, &bytes[s / 8..end], s % 8, len);
    copy_to_window(bytes, d, block, 0, len);
}
