//! Linux's cooked packets, which captures of all interfaces have in the place of frames, and the Ethernet frames that they
//! were.
ghost use Rattle.std.specs.Prelude.{◌≡◌, ◌+◌, ◌<◌, ◌≤◌, length, IfSome};
ghost use Rattle.em_pcap.specs.Step.{IsWithin};
ghost use Rattle.em_pcap.specs.Cooked.{cooking_of, header_len, six, cooked_in, type_of, group_of, destination};
ghost use Rattle.em_pcap.specs.Cooked.{ethernet_header, header_of, uncooked_header, uncooked_step};

use crate::form::{Found, Step};
use crate::order::Order;

/// The link types of cooked packets.
const LINUX_SLL: u32 = 113;

const LINUX_SLL2: u32 = 276;

/// The octets of an Ethernet header.
const ETHERNET_HEADER: u32 = 14;

/// The hardware type of an Ethernet interface, and how many octets its addresses have.
const ARPHRD_ETHER: u16 = 1;

const ADDRESS: u16 = 6;

/// Protocols that stand for a length.
const NOVELL: u16 = 1;

const LLC: u16 = 4;

/// The least number that is a type.
const LEAST_TYPE: u16 = 0x600;

const IPV4: u16 = 0x0800;

const IPV6: u16 = 0x86DD;

/// The octets of the headers of IPv4, without options, and of IPv6.
const IPV4_HEADER: usize = 20;

const IPV6_HEADER: usize = 40;

/// Where a packet went: to this machine, to all, to a group.
const TO_US: u16 = 0;

const BROADCAST: u16 = 1;

const MULTICAST: u16 = 2;

/// Which header packets have.
#[derive(Clone, Copy)]
pub(crate) enum Cooking {
    Sll,
    Sll2,
}

/// What a packet's header says.
#[derive(Clone, Copy)]
struct Cooked {
    way: u16,
    hardware: u16,
    address_len: u16,
    address: [u8; 6],
    protocol: u16,
}

impl Cooking {
    /// How many octets such a header has.
    fn header_len(self) -> u32
        ensures value { result ≡ header_len self }
        ensures most { result ≤ 20 }
    {
        match self {
            Cooking::Sll => 16,
            Cooking::Sll2 => 20,
        }
    }
}

/// Which header packets of a link type have, if they are cooked.
pub(crate) fn cooking_of(link: u32) -> Option<Cooking>
    ensures { result ≡ cooking_of link }
{
    match link {
        LINUX_SLL => Some(Cooking::Sll),
        LINUX_SLL2 => Some(Cooking::Sll2),
        _ => None,
    }
}

/// The frame that a packet in these octets was, where `own` is the address of who captured it. What was no frame of an
/// Ethernet interface is passed over.
pub(crate) fn uncooked_step(cooking: Cooking, own: [u8; 6], octets: &[u8], found: Found) -> Step
    requires some { 0 < found.len }
    requires whole { found.len ≤ length octets.now }
    requires there { found.at + found.captured ≤ length octets.now }
    ensures step { result ≡ uncooked_step cooking own octets.now found }
    ensures within { IsWithin (length octets.now) result }
{
    let packet = &octets[found.at..found.at + found.captured];
    let Some(header) = uncooked_header(cooking, own, packet, found.original) else {
        return Step::Skips(found.len);
    };
    let len = cooking.header_len();
    Step::Gives(Found {
        at: found.at + len as usize,
        captured: found.captured - len as usize,
        original: ETHERNET_HEADER + (found.original - len),
        header: Some(header),
        ..found
    })
}

/// The header of the frame that a packet was which had so many octets, if its own was captured whole.
#[tactic(auto, unfolding(crate::specs::Cooked::uncooked_header))]
fn uncooked_header(cooking: Cooking, own: [u8; 6], packet: &[u8], original: u32) -> Option<[u8; 14]>
    ensures value { result ≡ uncooked_header cooking own packet.now original }
    ensures whole { IfSome result (λ header. header_len cooking ≤ length packet.now) }
    ensures long { IfSome result (λ header. header_len cooking ≤ original) }
{
    let len = cooking.header_len();
    if packet.len() < len as usize || original < len {
        return None;
    }
    header_of(
        own,
        cooked_in(cooking, packet),
        &packet[len as usize..],
        original - len,
    )
}

/// What the header of a packet says.
fn cooked_in(cooking: Cooking, packet: &[u8]) -> Cooked
    requires { header_len cooking ≤ length packet.now }
    ensures { result ≡ cooked_in cooking packet.now }
{
    match cooking {
        Cooking::Sll => Cooked {
            way: Order::Big.u16_at(packet, 0),
            hardware: Order::Big.u16_at(packet, 2),
            address_len: Order::Big.u16_at(packet, 4),
            address: six(packet, 6),
            protocol: Order::Big.u16_at(packet, 14),
        },
        Cooking::Sll2 => Cooked {
            way: u16::from(packet[10]),
            hardware: Order::Big.u16_at(packet, 8),
            address_len: u16::from(packet[11]),
            address: six(packet, 12),
            protocol: Order::Big.u16_at(packet, 0),
        },
    }
}

/// Six octets from a place on.
fn six(octets: &[u8], at: usize) -> [u8; 6]
    requires { at + 6 ≤ length octets.now }
    ensures { result ≡ six at octets.now }
{
    [
        octets[at],
        octets[at + 1],
        octets[at + 2],
        octets[at + 3],
        octets[at + 4],
        octets[at + 5],
    ]
}

/// The Ethernet header of a packet with so many octets behind its own, of which these were captured.
fn header_of(own: [u8; 6], cooked: Cooked, octets: &[u8], behind: u32) -> Option<[u8; 14]>
    ensures { result ≡ header_of own cooked octets.now behind }
{
    if cooked.hardware != ARPHRD_ETHER || cooked.address_len != ADDRESS {
        return None;
    }
    let Some(kind) = type_of(cooked.protocol, behind) else {
        return None;
    };
    let to = destination(own, cooked.way, cooked.protocol, octets);
    Some(ethernet_header(to, cooked.address, kind))
}

/// An Ethernet header of these addresses, and of this type or length.
#[rattlefmt::skip]
#[tactic(auto, unfolding(crate::specs::Cooked::ethernet_header))]
fn ethernet_header(to: [u8; 6], from: [u8; 6], kind: u16) -> [u8; 14]
    ensures { result ≡ ethernet_header to from kind }
{
    [
        to[0], to[1], to[2], to[3], to[4], to[5],
        from[0], from[1], from[2], from[3], from[4], from[5],
        (kind / 256) as u8, (kind % 256) as u8,
    ]
}

/// The type or length of a frame with so many octets behind it, if its protocol is one of Ethernet.
fn type_of(protocol: u16, behind: u32) -> Option<u16>
    ensures { result ≡ type_of protocol behind }
{
    if protocol >= LEAST_TYPE {
        Some(protocol)
    } else if (protocol == NOVELL || protocol == LLC) && behind < u32::from(LEAST_TYPE) {
        Some(behind as u16)
    } else {
        None
    }
}

/// Where a packet went.
fn destination(own: [u8; 6], way: u16, protocol: u16, octets: &[u8]) -> [u8; 6]
    ensures { result ≡ destination own way protocol octets.now }
{
    match way {
        TO_US => own,
        BROADCAST => [0xFF, 0xFF, 0xFF, 0xFF, 0xFF, 0xFF],
        MULTICAST => group_of(protocol, octets),
        _ => [0x02, 0x00, 0x00, 0x00, 0x00, 0x00],
    }
}

/// The group of a packet of IPv4 or IPv6, by its destination; of another one it is not known.
fn group_of(protocol: u16, octets: &[u8]) -> [u8; 6]
    ensures { result ≡ group_of protocol octets.now }
{
    if protocol == IPV4 && octets.len() >= IPV4_HEADER {
        [0x01, 0x00, 0x5E, octets[17] % 128, octets[18], octets[19]]
    } else if protocol == IPV6 && octets.len() >= IPV6_HEADER {
        [0x33, 0x33, octets[36], octets[37], octets[38], octets[39]]
    } else {
        [0x01, 0x00, 0x00, 0x00, 0x00, 0x00]
    }
}
