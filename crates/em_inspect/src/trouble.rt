//! What is wrong with a descriptor.
ghost use Rattle.std.specs.Prelude.{◌≡◌, find};
ghost use Rattle.std.specs.List.{range_with_len};
ghost use Rattle.em_inspect.specs.Ring.{extent_of};
ghost use Rattle.em_inspect.specs.Trouble.{buffer_trouble, claim_of, descriptor_in, format_trouble, is_extended};
ghost use Rattle.em_inspect.specs.Trouble.{buffer_of, clash, is_live, is_over, is_posted_again, live_trouble};
ghost use Rattle.em_inspect.specs.Trouble.{has_buffer, is_null, length_trouble, lowest_over, sent_trouble, trouble_of};

use crate::descriptor::{Bits, Descriptor, Fields};
use crate::extent::Extent;
use crate::ring::{Owner, Side, SidedRing, is_adapters, owner_of};
use em_journal::Machine;
use em_regs::Profile;
use em_rx::RxDescriptor;
use em_tx::TxDescriptor;

/// The most octets of a transmit buffer that the adapter takes (this project's profile).
const MOST_LENGTH: u16 = 16_380;

/// What is wrong with a descriptor.
#[derive(Clone, Copy, Debug, PartialEq, Eq)]
pub enum Trouble {
    /// It lies outside guest memory.
    Outside,
    /// It is a transmit descriptor of the extended format (DEXT), which the adapter refuses (this project's profile).
    Extended,
    /// It is a transmit descriptor, and has no octets to send.
    NoLength,
    /// It is a transmit descriptor, and has more than 16,380 octets to send (this project's profile). What earlier
    /// buffers of its frame have is not counted.
    TooLong,
    /// Its buffer lies outside guest memory, or part of it does.
    BufferOutside,
    /// Its buffer lies over the ring's own descriptors.
    OverRing,
    /// Its buffer lies over that of another descriptor of the ring, which has this index, the lowest such. It does not
    /// where the driver has posted the one's buffer again as the other's.
    OverBuffer(u32),
}

impl SidedRing {
    /// The descriptor at an index, with what is wrong with it.
    ///
    /// Only the buffers of live descriptors count: of those that are the adapter's, and of those of the receive ring
    /// that it has written back (DD) and the driver has not taken. It looks at each descriptor of the ring.
    pub fn descriptor(&self, machine: &Machine, index: u32) -> Descriptor
        ensures { result ≡ descriptor_in self.now machine.now.present.base machine.now.present.memory index }
    {
        Descriptor {
            index,
            address: self.setup.descriptor_at(index),
            owner: owner_of(&self.setup, index),
            is_head: index == self.setup.head,
            is_tail: index == self.setup.tail,
            fields: self.fields(machine, index),
            trouble: self.trouble(machine, index),
        }
    }

    fn trouble(&self, machine: &Machine, index: u32) -> Option<Trouble>
        ensures { result ≡ trouble_of self.now machine.now.present.base machine.now.present.memory index }
    {
        let Some(fields) = self.fields(machine, index) else {
            return Some(Trouble::Outside);
        };
        if !owner_of(&self.setup, index).is_live(&fields.bits) {
            return None;
        }
        self.live_trouble(machine, index, &fields)
    }

    /// What is wrong with a live descriptor.
    fn live_trouble(&self, machine: &Machine, index: u32, fields: &Fields) -> Option<Trouble>
        ensures { result ≡ live_trouble self.now machine.now.present.base machine.now.present.memory index fields.now }
    {
        let is_null = self.is_null(fields);
        match self.side.format_trouble(is_null, fields) {
            Some(trouble) => Some(trouble),
            None if is_null => None,
            None => self.buffer_trouble(machine, index, &self.side.buffer(fields)),
        }
    }

    /// What is wrong with the buffer of a descriptor.
    fn buffer_trouble(&self, machine: &Machine, index: u32, buffer: &Extent) -> Option<Trouble>
        ensures { result
            ≡ buffer_trouble self.now machine.now.present.base machine.now.present.memory index buffer.now }
    {
        if buffer.at < machine.memory_base() || u128::from(machine.memory_end()) < buffer.end() {
            return Some(Trouble::BufferOutside);
        }
        if buffer.overlaps(&self.extent()) {
            return Some(Trouble::OverRing);
        }
        match self.lowest_over(machine, index, buffer) {
            Some(other) => Some(Trouble::OverBuffer(other)),
            None => None,
        }
    }

    /// Where the ring's descriptors lie.
    fn extent(&self) -> Extent
        ensures { result ≡ extent_of self.now.setup }
    {
        Extent {
            at: self.setup.base,
            size: 16 * u64::from(self.setup.count),
        }
    }

    /// The lowest descriptor whose buffer lies over that of the one at an index.
    fn lowest_over(&self, machine: &Machine, index: u32, buffer: &Extent) -> Option<u32>
        ensures { result ≡ lowest_over self.now machine.now.present.base machine.now.present.memory index buffer.now }
    {
        (0..self.setup.count).find(|other| self.is_over(machine, index, buffer, *other))
    }

    /// Whether the buffer of another descriptor lies over that of the one at an index.
    fn is_over(&self, machine: &Machine, index: u32, buffer: &Extent, other: u32) -> bool
        ensures { result ≡ is_over self.now machine.now.present.base machine.now.present.memory index buffer.now other }
    {
        if other == index {
            return false;
        }
        match self.claim(machine, other) {
            Some(claim) => self.clash(index, buffer, other, &claim),
            None => false,
        }
    }

    /// Whether the buffers of two descriptors have an octet in common, and not since one of them was posted again.
    fn clash(&self, index: u32, buffer: &Extent, other: u32, claim: &Extent) -> bool
        ensures { result ≡ clash self.now.setup index buffer.now other claim.now }
    {
        buffer.overlaps(claim) && !self.is_posted_again(index, buffer, other, claim)
    }

    /// Whether the driver has taken the frame of one of two descriptors, and posted its buffer again as the other's.
    fn is_posted_again(&self, index: u32, buffer: &Extent, other: u32, claim: &Extent) -> bool
        ensures { result ≡ is_posted_again self.now.setup index buffer.now other claim.now }
    {
        buffer.at == claim.at
            && !(is_adapters(&self.setup, index) && is_adapters(&self.setup, other))
    }

    /// The buffer of a live descriptor; none where it is not live, or has none. A descriptor of the adapter's is live.
    pub fn claim(&self, machine: &Machine, index: u32) -> Option<Extent>
        ensures { result ≡ claim_of self.now machine.now.present.base machine.now.present.memory index }
    {
        let fields = self.fields(machine, index)?;
        if owner_of(&self.setup, index).is_live(&fields.bits) && self.has_buffer(&fields) {
            Some(self.side.buffer(&fields))
        } else {
            None
        }
    }

    /// Whether no octet goes into a descriptor's buffer or out of it, by its address: in the second profile by the
    /// address 0.
    #[tactic(auto, unfolding(em_rx::specs::Control::is_null_at))]
    fn is_null(&self, fields: &Fields) -> bool
        ensures { result ≡ is_null self.now fields.now }
    {
        matches!(self.profile, Profile::Adapter) && fields.buffer == 0
    }

    /// Whether a descriptor has a buffer.
    fn has_buffer(&self, fields: &Fields) -> bool
        ensures { result ≡ has_buffer self.now fields.now }
    {
        !fields.bits.is_extended() && !self.is_null(fields)
    }
}

impl Owner {
    /// Whether the buffer of a descriptor counts that is this one's.
    fn is_live(&self, bits: &Bits) -> bool
        ensures { result ≡ is_live self.now bits.now }
    {
        match (self, bits) {
            (Owner::Adapter, _) => true,
            (Owner::Driver, Bits::Rx { status, .. }) => *status / RxDescriptor::DD % 2 == 1,
            (Owner::Driver, Bits::Tx { .. }) => false,
        }
    }
}

impl Bits {
    /// Whether they are those of the extended format.
    fn is_extended(&self) -> bool
        ensures { result ≡ is_extended self.now }
    {
        match self {
            Bits::Rx { .. } => false,
            Bits::Tx { command, .. } => *command / TxDescriptor::DEXT % 2 == 1,
        }
    }
}

impl Side {
    /// The buffer of a descriptor.
    fn buffer(&self, fields: &Fields) -> Extent
        ensures { result ≡ buffer_of self.now fields.now }
    {
        Extent {
            at: fields.buffer,
            size: match self {
                Side::Receive(size) => u64::from(*size),
                Side::Transmit => u64::from(fields.length),
            },
        }
    }

    /// What is wrong with a descriptor but for where its buffer lies, by whether it has none.
    fn format_trouble(&self, is_null: bool, fields: &Fields) -> Option<Trouble>
        ensures { result ≡ format_trouble self.now is_null fields.now }
    {
        match self {
            Side::Receive(_) => None,
            Side::Transmit => sent_trouble(is_null, fields),
        }
    }
}

/// What is wrong with the format of a transmit descriptor, and then with its length.
fn sent_trouble(is_null: bool, fields: &Fields) -> Option<Trouble>
    ensures { result ≡ sent_trouble is_null fields.now }
{
    if fields.bits.is_extended() {
        return Some(Trouble::Extended);
    }
    if is_null {
        return None;
    }
    length_trouble(fields.length)
}

/// What is wrong with the length of a transmit descriptor.
fn length_trouble(length: u16) -> Option<Trouble>
    ensures { result ≡ length_trouble length }
{
    match length {
        0 => Some(Trouble::NoLength),
        _ if length > MOST_LENGTH => Some(Trouble::TooLong),
        _ => None,
    }
}
