//! What is known of a capture at a place in it, and what stands there.
ghost use Rattle.std.specs.Prelude.{◌≡◌, ◌≤◌};
ghost use Rattle.em_pcap.specs.Classic.{nanoseconds_of};

use crate::cooked::Cooking;
use crate::fault::FaultKind;
use crate::order::Order;

/// What is known of a capture at a place in it.
#[derive(Clone, Copy)]
pub(crate) enum Form {
    /// Nothing: the file begins here, and was captured by a machine of this address.
    Start([u8; 6]),
    /// It is a classic file, and what its header says of the records.
    Classic(Header),
    /// It is a pcapng file, and the order of the section; and that address.
    Section(Order, [u8; 6]),
    /// Nothing is read any more.
    Done,
}

/// What the packets of a capture are.
#[derive(Clone, Copy)]
pub(crate) enum Link {
    /// Ethernet frames, each with so many octets of a frame check sequence behind it.
    Ethernet(u32),
    /// Linux's cooked packets with such a header, captured by a machine of this address.
    Cooked(Cooking, [u8; 6]),
}

/// What the header of a classic file says of its records.
#[derive(Clone, Copy)]
pub(crate) struct Header {
    pub(crate) order: Order,
    pub(crate) unit: Unit,
    /// The most octets of a packet; 0 for any number.
    pub(crate) snap: u32,
    /// What its packets are.
    pub(crate) link: Link,
}

/// What is counted within a second.
#[derive(Clone, Copy)]
pub(crate) enum Unit {
    Microseconds,
    Nanoseconds,
}

impl Unit {
    /// How many nanoseconds it has.
    #[inline(always)]
    pub(crate) fn nanoseconds(self) -> u64
        ensures value { result ≡ nanoseconds_of self }
        ensures small { result ≤ 1000 }
    {
        match self {
            Unit::Microseconds => 1000,
            Unit::Nanoseconds => 1,
        }
    }
}

/// What the description of an interface says of its packets.
#[derive(Clone, Copy)]
pub(crate) struct Interface {
    /// The most octets of a packet; 0 for any number.
    pub(crate) snap: u32,
    /// What its packets are.
    pub(crate) link: Link,
    /// How many nanoseconds its clock counts as one; none where that is not known.
    pub(crate) tick: Option<u64>,
}

/// A packet in a record or a block.
#[derive(Clone, Copy)]
pub(crate) struct Found {
    /// How many octets the record or the block has.
    pub(crate) len: usize,
    /// Where the packet's octets begin in it.
    pub(crate) at: usize,
    pub(crate) captured: usize,
    pub(crate) original: u32,
    pub(crate) time: Option<u64>,
    /// The Ethernet header before them, where the packet had another one.
    pub(crate) header: Option<[u8; 14]>,
}

/// What stands at a place in a capture. The numbers say how many octets it has.
#[derive(Clone, Copy)]
pub(crate) enum Step {
    /// Nothing: the capture ends here.
    Ends,
    /// Nothing that can be read.
    Stops(FaultKind),
    /// A packet.
    Gives(Found),
    /// The header of a file or of a section, behind which this is known, and no interface.
    Opens(usize, Form),
    /// The description of an interface.
    Adds(usize, Interface),
    /// A block that is not read.
    Skips(usize),
}
