//! Proofs about closures that have a state.
ghost use Rattle.std.specs.Prelude.{◌≡◌, ◌*◌, ◌%◌, ◌≤◌, ◌==◌, length, map};
ghost use Rattle.vb_pack.specs.Asked.{span};
ghost use Rattle.vb_pack.specs.Bits.{bits};

use vb_pack::collect_bool_bytes;

/// Packs the results of a closure that first returns true and then alternates.
pub fn alternating(bytes: &mut [u8], len: usize)
    requires { len ≤ 8 * length bytes.old }
    ensures { bits bytes.new 0 len ≡ map (λ i. i % 2 == 0) (span 0 len) }
{
    let mut next = true;
    collect_bool_bytes(
        bytes,
        len,
        &mut |_| {
            let now = next;
            next = !now;
            now
        },
    );
}

/// The number of calls of a closure, by its own count.
pub fn asked(bytes: &mut [u8], len: usize) -> usize
    requires { len ≤ 8 * length bytes.old }
    ensures { result ≡ len }
{
    let mut asked = 0usize;
    collect_bool_bytes(
        bytes,
        len,
        &mut |_| {
            asked = asked.wrapping_add(1);
            true
        },
    );
    asked
}
