//! Where octets of guest memory lie, in five octets.
ghost use Rattle.std.specs.Prelude.{◌≡◌, ◌<◌};

use std::marker::Model;

/// An address in guest memory, which ends at 2^40 at most: in five octets, so that records stay small. The highest comes
/// first, so that the others can lie in one piece of four.
#[derive(Drop)]
pub struct Place {
    high: u8,
    low: [u8; 4],
}

impl Model for Place {
    ghost use Rattle.std.specs.Prelude.{ℕ, ◌+◌, ◌*◌, slice_index_or};

    ghost Value = { ℕ };

    ghost view = { λ p. slice_index_or p.low 0 0 + 0x100 * slice_index_or p.low 1 0
        + 0x1_0000 * slice_index_or p.low 2 0 + 0x100_0000 * slice_index_or p.low 3 0 + 0x1_0000_0000 * p.high };
}

impl Place {
    /// The place of an address.
    #[inline(always)]
    pub fn new(addr: u64) -> Place
        requires { addr < 0x100_0000_0000 }
        ensures { result ≡ addr }
    {
        Place {
            high: (addr / 0x1_0000_0000) as u8,
            low: [
                (addr % 0x100) as u8,
                (addr / 0x100 % 0x100) as u8,
                (addr / 0x1_0000 % 0x100) as u8,
                (addr / 0x100_0000 % 0x100) as u8,
            ],
        }
    }

    /// The same place.
    pub fn copy(&self) -> Place
        ensures { result ≡ self.now }
    {
        Place {
            high: self.high,
            low: self.low,
        }
    }

    /// The address, in octets.
    #[inline(always)]
    pub fn addr(&self) -> u64
        ensures addr { result ≡ self.now }
        ensures most { result < 0x100_0000_0000 }
    {
        u64::from(self.low[0])
            + 0x100 * u64::from(self.low[1])
            + 0x1_0000 * u64::from(self.low[2])
            + 0x100_0000 * u64::from(self.low[3])
            + 0x1_0000_0000 * u64::from(self.high)
    }
}
