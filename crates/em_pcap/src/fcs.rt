//! Frame check sequences that a capture has behind its frames.
ghost use Rattle.std.specs.Prelude.{◌≡◌, ◌≤◌};
ghost use Rattle.em_pcap.specs.Fcs.{fcs_in_network, fcs_in, without_fcs};

use crate::form::Found;

/// The octets of Ethernet's frame check sequence.
const FCS: u32 = 4;

/// The field `network` of a classic file: the link type of Ethernet, and nothing of frame check sequences; that with the
/// bit f, which says that the words above it count; and that with f and two words of 16 bits.
const ETHERNET_ALONE: u32 = 0x0000_0001;

const ETHERNET_WITHOUT_FCS: u32 = 0x0400_0001;

const ETHERNET_WITH_FCS: u32 = 0x2400_0001;

/// How many octets of a frame check sequence follow each frame of an Ethernet file, by its field `network`.
pub(crate) fn fcs_in_network(network: u32) -> Option<u32>
    ensures { result ≡ fcs_in_network network }
{
    match network {
        ETHERNET_ALONE | ETHERNET_WITHOUT_FCS => Some(0),
        ETHERNET_WITH_FCS => Some(FCS),
        _ => None,
    }
}

/// The same by the value of the option of an interface, which writers give in octets or in bits.
pub(crate) fn fcs_in(value: &[u8]) -> Option<u32>
    ensures { result ≡ fcs_in value.now }
{
    match value {
        [0] => Some(0),
        [4 | 32] => Some(FCS),
        _ => None,
    }
}

/// A packet without its frame check sequence of so many octets, or what was captured of it.
#[inline(always)]
pub(crate) fn without_fcs(fcs: u32, found: Found) -> Found
    ensures gives { result ≡ without_fcs fcs found }
    ensures fewer { result.captured ≤ found.captured }
{
    let missing = (found.original as usize).saturating_sub(found.captured);
    let there = (fcs as usize).saturating_sub(missing);
    Found {
        captured: found.captured.saturating_sub(there),
        original: found.original.saturating_sub(fcs),
        ..found
    }
}
