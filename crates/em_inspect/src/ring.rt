//! Descriptor rings, as the registers set them up.
ghost use Rattle.std.specs.Prelude.{◌≡◌};
ghost use Rattle.em_regs.specs.Setup.{rx_setup, tx_setup};
ghost use Rattle.em_inspect.specs.Ring.{is_adapters, owner_of, rx_ring, tx_ring};

use em_journal::Machine;
use em_regs::{Profile, Ring};

/// Which way frames go through a ring.
#[derive(Clone, Copy, Debug, PartialEq, Eq)]
pub enum Side {
    /// They are received, each buffer of the ring having this many octets by RCTL.BSIZE and BSEX.
    Receive(u32),
    /// They are sent.
    Transmit,
}

/// Whose a descriptor is.
#[derive(Clone, Copy, Debug, PartialEq, Eq)]
pub enum Owner {
    /// The adapter's: from the head up to but not the tail, going round.
    Adapter,
    /// The driver's: each of the others.
    Driver,
}

/// A ring of descriptors, with the way that frames go through it.
#[derive(Clone, Copy, Debug, PartialEq, Eq)]
pub struct SidedRing {
    /// Which way frames go.
    pub side: Side,
    /// How the registers set the ring up.
    pub setup: Ring,
    /// The adapter's profile.
    pub profile: Profile,
}

impl SidedRing {
    /// The receive ring, as the registers say.
    pub fn rx(machine: &Machine) -> SidedRing
        ensures { result ≡ rx_ring machine.now.present.profile (rx_setup machine.now.present.registers) }
    {
        let setup = machine.ring_rx();
        SidedRing {
            side: Side::Receive(setup.buffer),
            setup: setup.ring(),
            profile: machine.profile(),
        }
    }

    /// The transmit ring, as the registers say.
    pub fn tx(machine: &Machine) -> SidedRing
        ensures { result ≡ tx_ring machine.now.present.profile (tx_setup machine.now.present.registers) }
    {
        SidedRing {
            side: Side::Transmit,
            setup: machine.ring_tx().ring(),
            profile: machine.profile(),
        }
    }
}

/// Whose the descriptor at an index of a ring is. Where the head or the tail stands past the last descriptor, all are the
/// driver's.
pub fn owner_of(ring: &Ring, index: u32) -> Owner
    ensures { result ≡ owner_of ring.now index }
{
    if is_adapters(ring, index) {
        Owner::Adapter
    } else {
        Owner::Driver
    }
}

/// Whether it is the adapter's.
pub(crate) fn is_adapters(ring: &Ring, index: u32) -> bool
    ensures { result ≡ is_adapters ring.now index }
{
    let stand_within = ring.head < ring.count && ring.tail < ring.count && index < ring.count;
    let behind_head = ring.head <= index;
    let before_tail = index < ring.tail;
    stand_within
        && if ring.head <= ring.tail {
            behind_head && before_tail
        } else {
            behind_head || before_tail
        }
}
