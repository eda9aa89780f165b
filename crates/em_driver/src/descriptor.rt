//! The descriptors of the two rings, as a driver reads and writes them.
ghost use Rattle.std.specs.Prelude.{◌≡◌, true, false, MatchOption};
ghost use Rattle.em_driver.specs.Descriptor.{is_done as has_dd, is_last as has_eop, is_whole};
ghost use Rattle.em_driver.specs.Descriptor.{length_of, transmit_descriptor};

use crate::layout::BUFFER_OCTETS;
use byteorder::{ByteOrder, LittleEndian};
use em_regs::DESCRIPTOR_OCTETS;
use em_rx::RxDescriptor;
use em_tx::TxDescriptor;

/// The octets of a descriptor.
pub(crate) type Descriptor = [u8; DESCRIPTOR_OCTETS];

/// Where the length lies in a descriptor.
const LENGTH: usize = 8;

/// Where CMD lies in a transmit descriptor.
const COMMAND: usize = 11;

/// Where the status octet lies in a receive descriptor.
pub(crate) const STATUS: usize = 12;

/// CMD of a whole packet.
const WHOLE_PACKET: u8 = TxDescriptor::EOP | TxDescriptor::IFCS | TxDescriptor::RS;

/// Whether the adapter wrote a receive descriptor back.
#[tactic(auto, unfolding(crate::specs::Descriptor::is_done))]
pub(crate) fn is_done(descriptor: &Descriptor) -> bool
    ensures { result ≡ has_dd descriptor.now }
{
    descriptor[STATUS] & RxDescriptor::DD != 0
}

/// Whether the buffer of a receive descriptor has the last octet of its frame.
#[tactic(auto, using(crate::proofs::course::BitFields::second_bit), unfolding(crate::specs::Descriptor::is_last))]
fn is_last(descriptor: &Descriptor) -> bool
    ensures { result ≡ has_eop descriptor.now }
{
    descriptor[STATUS] & RxDescriptor::EOP != 0
}

/// How many octets the packet of a receive descriptor has; None where its buffer does not have a
/// whole packet.
#[tactic(auto, unfolding(crate::specs::Descriptor::length_of))]
pub(crate) fn packet_length(descriptor: &Descriptor) -> Option<u16>
    ensures { MatchOption result (is_whole descriptor.now ≡ false)
        (λ octets. (is_whole descriptor.now ≡ true) × (octets ≡ length_of descriptor.now)) }
{
    let length = LittleEndian::read_u16(&descriptor[LENGTH..]);
    if is_last(descriptor) && 0 < length && length <= BUFFER_OCTETS as u16 {
        Some(length)
    } else {
        None
    }
}

/// The transmit descriptor of a packet of `length` octets at `address`.
pub(crate) fn of_packet(address: u64, length: u16) -> Descriptor
    ensures { result ≡ transmit_descriptor address length }
{
    let mut octets = [0; DESCRIPTOR_OCTETS];
    LittleEndian::write_u64(&mut octets, address);
    LittleEndian::write_u16(&mut octets[LENGTH..], length);
    octets[COMMAND] = WHOLE_PACKET;
    octets
}
