//! A ring of descriptors, as its registers set it up.
ghost use Rattle.std.specs.Prelude.{◌≡◌, ◌≤◌, ◌<◌, ◌^◌, IfSome, IfNone};
ghost use Rattle.em_regs.specs.Ring as spec;

/// How many octets a descriptor has (manual, chapters on packet reception and transmission).
pub const DESCRIPTOR_OCTETS: usize = 16;

/// A ring of descriptors in guest memory.
#[derive(Clone, Copy, Debug, PartialEq, Eq)]
pub struct Ring {
    /// RCTL.EN or TCTL.EN: the engine handles descriptors.
    pub enabled: bool,
    /// The address of descriptor 0, in octets.
    pub base: u64,
    /// How many descriptors the ring has.
    pub count: u32,
    /// RDH or TDH, the first descriptor that is the adapter's.
    pub head: u32,
    /// RDT or TDT, the first descriptor past those of the adapter.
    pub tail: u32,
}

impl Ring {
    /// Whether no descriptor is the adapter's, so that a step of its engine would be idle: the engine is off, the head
    /// or the tail stands past the last descriptor, or both stand at the same one.
    #[inline(always)]
    pub fn is_idle(&self) -> bool
        ensures { result ≡ spec.is_idle self.now }
    {
        !self.enabled
            || self.count <= self.head
            || self.count <= self.tail
            || self.head == self.tail
    }

    /// The descriptor behind the head.
    #[inline(always)]
    pub fn next(&self) -> u32
        requires { self.now.head < self.now.count }
        ensures next { result ≡ spec.next self.now }
        ensures within { result < self.now.count }
    {
        following(self.head, self.count)
    }

    /// Where a descriptor lies, in octets from the beginning of guest memory. That may be past 2^64.
    pub fn descriptor_at(&self, index: u32) -> u128
        ensures { result ≡ spec.descriptor_at self.now index }
    {
        u128::from(self.base) + DESCRIPTOR_OCTETS as u128 * u128::from(index)
    }

    /// Where a descriptor lies; none where that is past 2^64, and so outside of every memory.
    #[inline(always)]
    pub fn address_of(&self, index: u32) -> Option<u64>
        ensures some { IfSome result (λ address. address ≡ spec.descriptor_at self.now index) }
        ensures none { IfNone result (2 ^ 64 ≤ spec.descriptor_at self.now index) }
    {
        self.base
            .checked_add(DESCRIPTOR_OCTETS as u64 * u64::from(index))
    }
}

/// The descriptor behind the one of an index, in a ring of so many: behind the last one comes the first.
#[inline(always)]
pub fn following(index: u32, count: u32) -> u32
    requires { index < count }
    ensures following { result ≡ spec.following count index }
    ensures within { result < count }
{
    let next = index + 1;
    if next < count { next } else { 0 }
}
