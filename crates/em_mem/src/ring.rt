//! Slices whose end is followed by their beginning.
ghost use Rattle.std.specs.Prelude.{◌≡◌, ◌+◌, ◌<◌, ◌≤◌, ◌++◌, length, drop};
ghost use Rattle.em_mem.specs.Ring.{ring_part, ring_put, wrap as place_in};

/// The place `n` in a ring of the given size, where `n` may be past the end once.
pub fn wrap(size: u32, n: u32) -> u32
    ensures { result ≡ place_in size n }
{
    if n < size { n } else { n - size }
}

/// The `len` octets that lie in the ring from `at` on, in the two pieces in which they lie. The second is
/// empty where they end before the ring does.
#[inline(always)]
pub fn pieces(ring: &[u8], at: usize, len: usize) -> (&[u8], &[u8])
    requires at { at ≤ length ring.now }
    requires size { len ≤ length ring.now }
    ensures { result.0.now ++ result.1.now ≡ ring_part ring.now at len }
{
    let (low, high) = ring.split_at(at);
    if len <= high.len() {
        (&high[..len], &low[..0])
    } else {
        (high, &low[..len - high.len()])
    }
}

/// Writes the octets over those that lie in the ring from `at` on.
#[inline(always)]
pub fn put_octets(ring: &mut Vec<u8>, at: usize, octets: &[u8])
    requires at { at ≤ length ring.old.items }
    requires size { length octets.now ≤ length ring.old.items }
    ensures ring { ring.new.items ≡ ring_put ring.old.items at octets.now }
{
    let (low, high) = ring.as_mut_slice().split_at_mut(at);
    put_over(high, low, octets);
}

/// Writes the octets over those of a ring that is given in two parts, the one that comes first before the other.
#[inline(always)]
fn put_over(first: &mut [u8], second: &mut [u8], octets: &[u8])
    requires size { length octets.now ≤ length first.old + length second.old }
    ensures parts { first.new ++ second.new ≡ octets.now ++ drop (length octets.now) (first.old ++ second.old) }
    ensures first { length first.new ≡ length first.old }
{
    if octets.len() <= first.len() {
        put_front(first, octets);
    } else {
        put_round(first, second, octets);
    }
}

/// Writes octets that go over all of the part that comes first. Few do, so this stands apart.
#[inline(never)]
fn put_round(first: &mut [u8], second: &mut [u8], octets: &[u8])
    requires more { length first.old < length octets.now }
    requires size { length octets.now ≤ length first.old + length second.old }
    ensures parts { first.new ++ second.new ≡ octets.now ++ drop (length octets.now) (first.old ++ second.old) }
    ensures first { length first.new ≡ length first.old }
{
    let (before, after) = octets.split_at(first.len());
    first.copy_from_slice(before);
    put_front(second, after);
}

/// Writes the octets over those at the front of the slice.
#[inline(always)]
pub(crate) fn put_front(slice: &mut [u8], octets: &[u8])
    requires size { length octets.now ≤ length slice.old }
    ensures slice { slice.new ≡ octets.now ++ drop (length octets.now) slice.old }
{
    slice[..octets.len()].copy_from_slice(octets);
}
