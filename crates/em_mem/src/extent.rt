//! Where a record puts octets back: who asks what it changed goes there, and not over all of memory.
ghost use Rattle.std.specs.Prelude.{◌≡◌, ℕ, List, length};
ghost use Rattle.em_mem.specs.Memory.{Cells, Fits, undo};
ghost use Rattle.em_mem.specs.Extent.{SameUpTo, least, next_octet};

/// Of octets that lay from `at` on, the least address from `addr` on where one lay. Up to there, or to the end of
/// memory where there is none, memory stays as it is when they are put back.
#[inline(always)]
pub fn next_octet(at: u64, octets: &[u8], addr: u64) -> Option<u64>
    ensures next { result ≡ next_octet addr (record { at = at; octets = octets.now }) }
    ensures same { (m : Cells) → Fits m (record { at = at; octets = octets.now })
        → SameUpTo m.octets (undo m (record { at = at; octets = octets.now })).octets addr result }
{
    next_in(at, octets.len(), addr)
}

/// The same of so many octets, whatever they are.
#[inline(always)]
pub fn next_in(at: u64, len: usize, addr: u64) -> Option<u64>
    ensures { (octets : List ℕ) → length octets ≡ len
        → result ≡ next_octet addr (record { at = at; octets = octets }) }
{
    let next = at.max(addr);
    if next - at < len as u64 {
        Some(next)
    } else {
        None
    }
}

/// The lesser of two addresses, of those that there are: where two records are put back one after the other, the next
/// octet of both.
#[inline(always)]
pub fn least(one: Option<u64>, other: Option<u64>) -> Option<u64>
    ensures { result ≡ least one other }
{
    match (one, other) {
        (Some(one), Some(other)) => Some(one.min(other)),
        (Some(one), None) => Some(one),
        (None, other) => other,
    }
}
