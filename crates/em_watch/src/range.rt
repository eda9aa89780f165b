//! A short range of guest memory.
ghost use Rattle.std.specs.Prelude.{◌≡◌, ◌+◌, ◌-◌, ◌^◌, ◌≤◌, ◌<◌, ◌↔◌, IsSome, IfSome};
ghost use Rattle.em_watch.specs.declared.range.TheConstants.{MOST_WATCHED};

/// The most octets of guest memory that are watched at once.
pub const MOST_WATCHED: usize = 16;

/// A range of guest memory: at least one octet, and at most [`MOST_WATCHED`].
#[derive(Clone, Copy, PartialEq, Eq, Debug)]
pub struct MemoryRange {
    addr: u64,
    len: usize,
    ghost some: { 0 < len },
    ghost most: { len ≤ MOST_WATCHED },
}

impl MemoryRange {
    /// The range of so many octets from an address on; none where they are no octet or more than
    /// [`MOST_WATCHED`].
    pub fn new(addr: u64, len: usize) -> Option<MemoryRange>
        ensures some { IsSome result ↔ ((0 < len) × (len ≤ MOST_WATCHED)) }
        ensures addr { IfSome result (λ range. range.addr ≡ addr) }
        ensures len { IfSome result (λ range. range.len ≡ len) }
    {
        if len == 0 || len > MOST_WATCHED {
            return None;
        }
        Some(MemoryRange { addr, len })
    }

    /// Where the range begins.
    pub fn addr(&self) -> u64
        ensures { result ≡ self.now.addr }
    {
        self.addr
    }

    /// How many octets it has.
    pub fn len(&self) -> usize
        ensures len { result ≡ self.now.len }
        ensures some { 0 < result }
        ensures most { result ≤ MOST_WATCHED }
    {
        self.len
    }

    /// The range from an address on of as many octets as there is room for, and at most [`MOST_WATCHED`].
    pub(crate) fn within(addr: u64, room: u64) -> MemoryRange
        requires { 0 < room }
        ensures addr { result.addr ≡ addr }
        ensures held { result.len ≤ room }
    {
        MemoryRange {
            addr,
            len: room.min(MOST_WATCHED as u64) as usize,
        }
    }

    /// Its octets from one on to another.
    pub(crate) fn between(self, first: usize, last: usize) -> MemoryRange
        requires order { first ≤ last }
        requires within { last < self.len }
        requires fits { self.addr + self.len < 2 ^ 64 }
        ensures addr { result.addr ≡ self.addr + first }
        ensures len { result.len ≡ last - first + 1 }
    {
        MemoryRange {
            addr: self.addr + first as u64,
            len: last - first + 1,
        }
    }
}
