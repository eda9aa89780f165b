//! What a descriptor can have against it that the driver gives to the adapter.
ghost use Rattle.std.specs.Prelude.{◌≡◌};
ghost use Rattle.em_warnings.specs.Flaw.{are_zeros, is_in};

use em_regs::DESCRIPTOR_OCTETS;
use em_tx::TxDescriptor;

/// Where the status octet lies in a descriptor of either ring.
pub(crate) const STATUS: usize = 12;

/// What a descriptor can have against it that the driver gives to the adapter.
#[derive(Clone, Copy)]
pub(crate) enum Flaw {
    /// All its octets are 0.
    Unwritten,
    /// Its status has DD, from the lap before: the adapter has handled it. The bit is the same in both rings.
    StatusLeft,
    /// Its status has DD, and the driver has not written it since.
    SentBefore,
}

impl Flaw {
    /// Whether a descriptor's octets have it.
    pub(crate) fn is_in(self, octets: &[u8; DESCRIPTOR_OCTETS]) -> bool
        ensures { result ≡ is_in self octets.now }
    {
        match self {
            Flaw::Unwritten => are_zeros(octets),
            Flaw::StatusLeft | Flaw::SentBefore => {
                octets[STATUS] & TxDescriptor::DD == TxDescriptor::DD
            }
        }
    }
}

/// Whether all octets of a descriptor are 0.
fn are_zeros(octets: &[u8; DESCRIPTOR_OCTETS]) -> bool
    ensures { result ≡ are_zeros octets.now }
{
    octets.iter().all(|octet| *octet == 0)
}
