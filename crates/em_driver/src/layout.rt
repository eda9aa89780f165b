//! Where a driver keeps its descriptors and buffers.
ghost use Rattle.std.specs.Prelude.{◌≡◌, ◌↔◌, ◌+◌, ◌≤◌, ◌<◌, IsTrue};
ghost use Rattle.em_driver.specs.Layout.{Apart, AreDisjoint, IsCount, IsGoodLayout, IsGoodSide, IsPlacedSide};
ghost use Rattle.em_driver.specs.Layout.{buffer, buffer_octets, descriptor, ring_octets, rx, tx};

/// Where a driver keeps its descriptors and buffers in the guest's memory: two rings of descriptors
/// of 16 octets, and for each descriptor a buffer of 2,048 octets. Addresses are in octets.
#[derive(Clone, Copy, PartialEq, Eq, Debug)]
pub struct Layout {
    /// Where the ring of receive descriptors begins.
    pub rx_ring: u64,
    /// How many receive descriptors there are.
    pub rx_count: u32,
    /// Where the receive buffers begin.
    pub rx_buffers: u64,
    /// Where the ring of transmit descriptors begins.
    pub tx_ring: u64,
    /// How many transmit descriptors there are.
    pub tx_count: u32,
    /// Where the transmit buffers begin.
    pub tx_buffers: u64,
}

/// How many octets a descriptor has, as addresses count them.
pub(crate) const DESCRIPTOR_OCTETS: u64 = em_regs::DESCRIPTOR_OCTETS as u64;

/// How many octets a buffer has.
pub(crate) const BUFFER_OCTETS: u64 = 2048;

/// A ring has a multiple of this many descriptors, and at least this many.
const LEAST_COUNT: u32 = 8;

/// The most descriptors of a ring.
const MOST_COUNT: u32 = 4096;

/// One side of a layout: a ring of descriptors, and for each of them a buffer.
#[derive(Clone, Copy)]
pub(crate) struct Side {
    /// Where the ring begins.
    pub(crate) ring: u64,
    /// How many descriptors it has.
    pub(crate) count: u32,
    /// Where the buffers begin.
    pub(crate) buffers: u64,
}

impl Side {
    /// How many octets the ring has.
    fn ring_octets(&self) -> u64
        ensures { result ≡ ring_octets self.now }
    {
        DESCRIPTOR_OCTETS * u64::from(self.count)
    }

    /// How many octets the buffers have.
    fn buffer_octets(&self) -> u64
        ensures { result ≡ buffer_octets self.now }
    {
        BUFFER_OCTETS * u64::from(self.count)
    }

    /// Where descriptor `index` lies.
    pub(crate) fn descriptor(&self, index: u32) -> u64
        requires index { index < self.now.count }
        requires placed { IsPlacedSide self.now }
        ensures value { result ≡ descriptor self.now index }
        ensures within { result + 16 ≤ 0xFFFF_FFFF_FFFF_FFFF }
    {
        self.ring + DESCRIPTOR_OCTETS * u64::from(index)
    }

    /// Where the buffer of descriptor `index` lies.
    pub(crate) fn buffer(&self, index: u32) -> u64
        requires index { index < self.now.count }
        requires placed { IsPlacedSide self.now }
        ensures { result ≡ buffer self.now index }
    {
        self.buffers + BUFFER_OCTETS * u64::from(index)
    }

    /// Whether a driver can use it in a memory from `base` up to `end`.
    fn is_good(&self, base: u64, end: u64) -> bool
        ensures { IsTrue result ↔ IsGoodSide base end self.now }
    {
        is_count(self.count)
            && self.ring % DESCRIPTOR_OCTETS == 0
            && is_within(self.ring, self.ring_octets(), base, end)
            && is_within(self.buffers, self.buffer_octets(), base, end)
            && are_apart(
                self.ring,
                self.ring_octets(),
                self.buffers,
                self.buffer_octets(),
            )
    }

    /// Whether no region of it has an octet in common with one of another side.
    fn is_apart_from(&self, other: &Side) -> bool
        requires first { IsPlacedSide self.now }
        requires second { IsPlacedSide other.now }
        ensures { IsTrue result ↔ AreDisjoint self.now other.now }
    {
        are_apart(
            self.ring,
            self.ring_octets(),
            other.ring,
            other.ring_octets(),
        ) && are_apart(
            self.buffers,
            self.buffer_octets(),
            other.buffers,
            other.buffer_octets(),
        ) && are_apart(
            self.ring,
            self.ring_octets(),
            other.buffers,
            other.buffer_octets(),
        ) && are_apart(
            other.ring,
            other.ring_octets(),
            self.buffers,
            self.buffer_octets(),
        )
    }
}

impl Layout {
    /// Where a driver receives.
    #[inline(always)]
    pub(crate) fn rx(&self) -> Side
        ensures { result ≡ rx self.now }
    {
        Side {
            ring: self.rx_ring,
            count: self.rx_count,
            buffers: self.rx_buffers,
        }
    }

    /// Where a driver sends.
    #[inline(always)]
    pub(crate) fn tx(&self) -> Side
        ensures { result ≡ tx self.now }
    {
        Side {
            ring: self.tx_ring,
            count: self.tx_count,
            buffers: self.tx_buffers,
        }
    }

    /// Whether a driver can keep its descriptors and buffers so in a memory from `base` up to `end`: both
    /// counts are multiples of 8 from 8 to 4,096, both rings begin at multiples of 16, and the four
    /// regions are inside memory and have no octet in common.
    pub(crate) fn is_good(&self, base: u64, end: u64) -> bool
        ensures { IsTrue result ↔ IsGoodLayout base end self.now }
    {
        let rx = self.rx();
        let tx = self.tx();
        rx.is_good(base, end) && tx.is_good(base, end) && rx.is_apart_from(&tx)
    }
}

fn is_count(count: u32) -> bool
    ensures { IsTrue result ↔ IsCount count }
{
    count % LEAST_COUNT == 0 && LEAST_COUNT <= count && count <= MOST_COUNT
}

/// Whether `len` octets from `start` on lie in a memory from `base` up to `end`.
fn is_within(start: u64, len: u64, base: u64, end: u64) -> bool
    ensures { IsTrue result ↔ ((base ≤ start) × (start + len ≤ end)) }
{
    base <= start && len <= end && start <= end - len
}

/// Whether no octet is one of `m` octets from `a` on and one of `n` octets from `b` on.
fn are_apart(a: u64, m: u64, b: u64, n: u64) -> bool
    requires first { a + m ≤ 0xFFFF_FFFF_FFFF_FFFF }
    requires second { b + n ≤ 0xFFFF_FFFF_FFFF_FFFF }
    ensures { IsTrue result ↔ Apart a m b n }
{
    a + m <= b || b + n <= a
}
