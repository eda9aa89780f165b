//! The kinds of destination addresses.
ghost use Rattle.std.specs.Prelude.{◌≡◌};
ghost use Rattle.em_address.specs.Kind.{destination, is_group, kind_of};

/// The octets of a broadcast address.
const BROADCAST: [u8; 6] = [0xFF; 6];

/// What a destination address names (manual, chapter on receive description).
#[derive(Clone, Copy, PartialEq, Eq, Debug)]
pub enum Kind {
    /// One adapter.
    Unicast,
    /// A group of adapters other than all: bit 0 of octet 0 is set.
    Multicast,
    /// All adapters: each octet is FF.
    Broadcast,
}

impl Kind {
    /// Whether it is a group address, broadcast among them.
    pub fn is_group(self) -> bool
        ensures { result ≡ is_group self }
    {
        !matches!(self, Kind::Unicast)
    }
}

/// The kind of a destination address.
#[tactic(auto, unfolding(crate::specs::Kind::destination, crate::specs::Kind::kind_of))]
pub fn kind_of(address: &[u8; 6]) -> Kind
    ensures { result ≡ kind_of (destination address.now) }
{
    if *address == BROADCAST {
        Kind::Broadcast
    } else if address[0] % 2 == 1 {
        Kind::Multicast
    } else {
        Kind::Unicast
    }
}
