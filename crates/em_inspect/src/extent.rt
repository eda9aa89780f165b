//! Ranges of addresses.
ghost use Rattle.std.specs.Prelude.{◌≡◌, ◌+◌};
ghost use Rattle.em_inspect.specs.Extent.{overlaps};

/// So many octets from an address on.
#[derive(Clone, Copy, Debug, PartialEq, Eq)]
pub struct Extent {
    /// The address of the first.
    pub at: u64,
    /// How many they are.
    pub size: u64,
}

impl Extent {
    /// The address behind its last octet.
    pub(crate) fn end(&self) -> u128
        ensures { result ≡ self.now.at + self.now.size }
    {
        u128::from(self.at) + u128::from(self.size)
    }

    /// Whether both have an octet in common.
    pub fn overlaps(&self, other: &Extent) -> bool
        ensures { result ≡ overlaps self.now other.now }
    {
        u128::from(self.at.max(other.at)) < self.end().min(other.end())
    }
}
