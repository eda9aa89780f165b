//! Places before others in a ring, and octets in two pieces.
ghost use Rattle.std.specs.Prelude.{◌≡◌, ◌+◌, ◌^◌, ◌<◌, ◌≤◌, ◌++◌, length};
ghost use Rattle.em_mem.specs.Ring.{ring_part, ring_put};
ghost use Rattle.em_mem.specs.OldOctets.{back_by, saved};

use em_mem::OldOctets;
use em_mem::ring::{pieces, put_octets, wrap};

/// The place `n` before place `k` in a ring of the given size, where what is before the beginning is the end.
#[inline(always)]
pub(crate) fn back(size: u32, n: u32, k: u32) -> u32
    requires size { n ≤ size }
    requires small { k + size < 2 ^ 32 }
    ensures { result ≡ back_by size n k }
{
    if n <= k { k - n } else { k + size - n }
}

/// Saves the `len` octets that lie in the ring from `at` on before other old octets: what is saved later comes first.
#[inline(always)]
pub(crate) fn save_part(ring: &[u8], at: usize, len: usize, old: &mut OldOctets)
    requires at { at ≤ length ring.now }
    requires size { len ≤ length ring.now }
    requires old_room { len ≤ length old.old.octets }
    ensures { old.new ≡ saved (ring_part ring.now at len) old.old }
{
    let (front, back) = pieces(ring, at, len);
    if !back.is_empty() {
        old.save(back);
    }
    old.save(front);
}

/// Writes two pieces over the octets that lie in the ring from `at` on, one behind the other.
#[inline(always)]
pub(crate) fn put_both(ring: &mut Vec<u8>, at: usize, front: &[u8], back: &[u8])
    requires at { at < length ring.old.items }
    requires size { length front.now + length back.now ≤ length ring.old.items }
    requires small { length ring.old.items < 2 ^ 31 }
    ensures { ring.new.items ≡ ring_put ring.old.items at (front.now ++ back.now) }
{
    put_octets(ring, at, front);
    if !back.is_empty() {
        let behind = wrap(ring.len() as u32, (at + front.len()) as u32);
        put_octets(ring, behind as usize, back);
    }
}
