//! What the packets of a capture are, and the frame that each is.
ghost use Rattle.std.specs.Prelude.{◌≡◌, ◌+◌, ◌<◌, ◌≤◌, length};
ghost use Rattle.em_pcap.specs.Link.{link_in_network, link_of, ethernet_of, frame_step};
ghost use Rattle.em_pcap.specs.Step.{IsWithin};

use crate::cooked::{cooking_of, uncooked_step};
use crate::fcs::{fcs_in_network, without_fcs};
use crate::form::{Found, Link, Step};

/// The link type of Ethernet.
const ETHERNET: u16 = 1;

/// What the packets of a classic file are, by its field `network`, where `own` is the address of who captured them.
pub(crate) fn link_in_network(own: [u8; 6], network: u32) -> Option<Link>
    ensures { result ≡ link_in_network own network }
{
    match cooking_of(network) {
        Some(cooking) => Some(Link::Cooked(cooking, own)),
        None => ethernet_of(fcs_in_network(network)),
    }
}

/// What the packets of an interface of a link type are; of Ethernet, with such a frame check sequence.
pub(crate) fn link_of(own: [u8; 6], kind: u16, fcs: Option<u32>) -> Option<Link>
    ensures { result ≡ link_of own kind fcs }
{
    if kind == ETHERNET {
        return ethernet_of(fcs);
    }
    match cooking_of(u32::from(kind)) {
        Some(cooking) => Some(Link::Cooked(cooking, own)),
        None => None,
    }
}

/// Ethernet with a frame check sequence, where it is known which.
fn ethernet_of(fcs: Option<u32>) -> Option<Link>
    ensures { result ≡ ethernet_of fcs }
{
    match fcs {
        Some(fcs) => Some(Link::Ethernet(fcs)),
        None => None,
    }
}

/// The frame that a packet in these octets is. What was no Ethernet frame is passed over.
#[inline(always)]
pub(crate) fn frame_step(link: Link, octets: &[u8], found: Found) -> Step
    requires some { 0 < found.len }
    requires whole { found.len ≤ length octets.now }
    requires there { found.at + found.captured ≤ length octets.now }
    ensures step { result ≡ frame_step link octets.now found }
    ensures within { IsWithin (length octets.now) result }
{
    match link {
        Link::Ethernet(fcs) => Step::Gives(without_fcs(fcs, found)),
        Link::Cooked(cooking, own) => uncooked_step(cooking, own, octets, found),
    }
}
