//! The descriptors of a ring, as they lie in guest memory.
ghost use Rattle.std.specs.Prelude.{◌≡◌};
ghost use Rattle.em_inspect.specs.Ring.{fields_at, fields_in, octets_at};

use crate::ring::{Owner, Side, SidedRing};
use crate::trouble::Trouble;
use em_journal::Machine;
use em_journal::laws::addresses_are_small;
use em_regs::{DESCRIPTOR_OCTETS, Ring};
use em_rx::RxDescriptor;
use em_tx::TxDescriptor;

/// The bits of a descriptor (manual, chapters on packet reception and transmission: legacy descriptors).
#[derive(Clone, Copy, Debug, PartialEq, Eq)]
pub enum Bits {
    /// Those of a receive descriptor.
    Rx {
        /// DD (bit 0), EOP (1), IXSM (2), VP (3), TCPCS (5), IPCS (6) and PIF (7).
        status: u8,
        /// CE (bit 0), SE (1), SEQ (2), CXE (4), TCPE (5), IPE (6) and RXE (7).
        errors: u8,
    },
    /// Those of a transmit descriptor.
    Tx {
        /// EOP (bit 0), IFCS (1), IC (2), RS (3), RPS (4), DEXT (5), VLE (6) and IDE (7).
        command: u8,
        /// DD (bit 0), EC (1), LC (2) and TU (3).
        status: u8,
    },
}

/// What a descriptor says.
#[derive(Clone, Copy, Debug, PartialEq, Eq)]
pub struct Fields {
    /// Where its buffer lies, in octets.
    pub buffer: u64,
    /// Its length, in octets: how many the adapter put into the buffer, or is to send out of it.
    pub length: u16,
    /// Its bits.
    pub bits: Bits,
}

/// A descriptor of a ring.
#[derive(Clone, Copy, Debug, PartialEq, Eq)]
pub struct Descriptor {
    /// Its index in the ring, the first one's being 0.
    pub index: u32,
    /// Where it lies, in octets.
    pub address: u128,
    /// Whose it is.
    pub owner: Owner,
    /// The head stands here.
    pub is_head: bool,
    /// The tail stands here.
    pub is_tail: bool,
    /// What it says; none where it lies outside guest memory.
    pub fields: Option<Fields>,
    /// What is wrong with it first.
    pub trouble: Option<Trouble>,
}

impl SidedRing {
    /// What the descriptor at an index says; none where it lies outside guest memory.
    pub(crate) fn fields(&self, machine: &Machine, index: u32) -> Option<Fields>
        ensures { result ≡ fields_at self.now machine.now.present.base machine.now.present.memory index }
    {
        let octets = octets_at(machine, &self.setup, index)?;
        Some(self.side.fields(octets))
    }
}

/// The octets of the descriptor at an index of a ring; none where it lies outside guest memory.
pub fn octets_at(machine: &Machine, ring: &Ring, index: u32) -> Option<[u8; DESCRIPTOR_OCTETS]>
    ensures { result ≡ octets_at ring.now machine.now.present.base machine.now.present.memory index }
{
    addresses_are_small(machine);
    let address = ring.address_of(index)?;
    let mut octets = [0u8; DESCRIPTOR_OCTETS];
    match machine.peek(address, &mut octets) {
        Ok(()) => Some(octets),
        Err(_) => None,
    }
}

impl Side {
    /// What a descriptor's octets say.
    fn fields(&self, octets: [u8; DESCRIPTOR_OCTETS]) -> Fields
        ensures { result ≡ fields_in self.now octets }
    {
        match self {
            Side::Receive(_) => {
                let descriptor = RxDescriptor::read(&octets);
                Fields {
                    buffer: descriptor.address(),
                    length: descriptor.length(),
                    bits: Bits::Rx {
                        status: descriptor.status(),
                        errors: descriptor.errors(),
                    },
                }
            }
            Side::Transmit => {
                let descriptor = TxDescriptor::of_octets(octets);
                Fields {
                    buffer: descriptor.address(),
                    length: descriptor.length(),
                    bits: Bits::Tx {
                        command: descriptor.command(),
                        status: descriptor.status(),
                    },
                }
            }
        }
    }
}
