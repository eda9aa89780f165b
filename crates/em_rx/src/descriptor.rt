//! The receive descriptor (manual, chapter on packet reception: legacy receive descriptor).
ghost use Rattle.std.specs.Prelude.{◌≡◌, length, true};
ghost use Rattle.em_rx.specs.Descriptor.{descriptor_of, marked_done as done_of, special_of, status_of};
ghost use Rattle.em_rx.specs.Descriptor.{written_back as octets_of};

use byteorder::{ByteOrder, LittleEndian};
use std::marker::Model;

/// The first of its octets that the adapter writes back.
pub(crate) const WRITTEN_AT: u64 = 8;

/// How many octets the adapter writes back.
pub(crate) const WRITTEN_OCTETS: usize = 8;

/// Where the status lies among them.
const STATUS_AT: usize = 4;

/// The status bits of each descriptor whose buffer got octets.
const WRITTEN: u8 = RxDescriptor::DD | RxDescriptor::IXSM;

/// A receive descriptor, as it lies in guest memory.
#[derive(Drop)]
pub struct RxDescriptor {
    address: u64,
    length: u16,
    checksum: u16,
    status: u8,
    errors: u8,
    special: u16,
}

impl Model for RxDescriptor {
    ghost use Rattle.em_rx.specs.Descriptor as spec;

    ghost Value = { spec.RxDescriptor };

    ghost view = { λ d. record {
      address = d.address;
      length = d.length;
      checksum = d.checksum;
      status = d.status;
      errors = d.errors;
      special = d.special;
    } };
}

impl RxDescriptor {
    /// A bit of the status: the descriptor was written back.
    pub const DD: u8 = 0x01;

    /// A bit of the status: the frame's last octet is in the buffer.
    pub const EOP: u8 = 0x02;

    /// A bit of the status: no checksum was made.
    pub const IXSM: u8 = 0x04;

    /// A bit of the status: the frame had a VLAN tag.
    pub const VP: u8 = 0x08;

    /// A bit of the status: no exact filter takes the frame.
    pub const PIF: u8 = 0x80;

    /// The descriptor that 16 octets are.
    pub fn read(octets: &[u8]) -> RxDescriptor
        requires { length octets.now ≡ 16 }
        ensures { result ≡ descriptor_of octets.now }
    {
        RxDescriptor {
            address: LittleEndian::read_u64(octets),
            length: LittleEndian::read_u16(&octets[8..]),
            checksum: LittleEndian::read_u16(&octets[10..]),
            status: octets[12],
            errors: octets[13],
            special: LittleEndian::read_u16(&octets[14..]),
        }
    }

    /// Where its buffer lies, in octets.
    pub fn address(&self) -> u64
        ensures { result ≡ self.now.address }
    {
        self.address
    }

    /// How many octets are in its buffer, once it is written back.
    pub fn length(&self) -> u16
        ensures { result ≡ self.now.length }
    {
        self.length
    }

    /// The packet checksum; it is 0 in each descriptor that is written back (this project's profile).
    pub fn checksum(&self) -> u16
        ensures { result ≡ self.now.checksum }
    {
        self.checksum
    }

    /// DD (bit 0), EOP (1), IXSM (2), VP (3) and PIF (7).
    pub fn status(&self) -> u8
        ensures { result ≡ self.now.status }
    {
        self.status
    }

    /// The errors; 0 in each descriptor that is written back.
    pub fn errors(&self) -> u8
        ensures { result ≡ self.now.errors }
    {
        self.errors
    }

    /// The special field: the frame's VLAN tag, where VP is set.
    pub fn special(&self) -> u16
        ensures { result ≡ self.now.special }
    {
        self.special
    }
}

/// How a frame came in, as the descriptor of its last octet says it.
#[derive(Clone, Copy)]
pub(crate) struct Told {
    /// No exact filter takes it.
    pub(crate) inexact: bool,
    /// Its VLAN tag, if it had one.
    pub(crate) tag: Option<u16>,
}

/// The status and the special field of a descriptor whose buffer got the last octet of a frame.
fn last_fields(told: Told) -> (u8, u16)
    ensures status { result.0 ≡ status_of true told.inexact told.tag }
    ensures special { result.1 ≡ special_of true told.tag }
{
    let filter = if told.inexact { RxDescriptor::PIF } else { 0 };
    match told.tag {
        None => (WRITTEN | RxDescriptor::EOP | filter, 0),
        Some(tag) => (WRITTEN | RxDescriptor::EOP | RxDescriptor::VP | filter, tag),
    }
}

/// Octets 8 to 15 of a descriptor that takes no octets: what they were, with DD set.
pub(crate) fn marked_done(octets: [u8; WRITTEN_OCTETS]) -> [u8; WRITTEN_OCTETS]
    ensures { result ≡ done_of octets }
{
    let mut octets = octets;
    octets[STATUS_AT] |= RxDescriptor::DD;
    octets
}

/// Octets 8 to 15 of a descriptor whose buffer got `count` octets.
pub(crate) fn written_back(count: u16, last: bool, told: Told) -> [u8; WRITTEN_OCTETS]
    ensures { result ≡ octets_of count last told.inexact told.tag }
{
    let (status, special) = if last {
        last_fields(told)
    } else {
        (WRITTEN, 0)
    };
    let [length_low, length_high] = count.to_le_bytes();
    let [special_low, special_high] = special.to_le_bytes();
    [
        length_low,
        length_high,
        0,
        0,
        status,
        0,
        special_low,
        special_high,
    ]
}
