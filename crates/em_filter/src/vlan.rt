//! Frames with a VLAN tag, and the filter of their identifiers.
ghost use Rattle.std.specs.Prelude.{◌≡◌, ◌<◌, ◌≤◌, length};
ghost use Rattle.em_filter.specs.Vlan.{carries_tag, cfi_of, is_listed, passes_cfi, passes_vlan, tagged};

use crate::bits::{self, WORD_BITS};
use em_regs::{Profile, RegFile};

/// A frame with a tag has these octets at least: two addresses, a type and the tag.
const TAGGED_OCTETS: usize = 16;

/// The bit of a tag that is its CFI.
const CFI_BIT: u16 = 0x1000;

/// How many identifiers there are: the low bits of a tag.
const IDENTIFIERS: u16 = 4096;

/// Whether a frame is tagged: its tag is removed where it is stored.
#[tactic(auto, unfolding(crate::specs::Vlan::tagged))]
pub fn tagged(regs: &RegFile, frame: &[u8]) -> bool
    ensures { result ≡ tagged regs.now frame.now }
{
    bits::vme(regs) && carries_tag(regs, frame)
}

/// Whether the VLAN filter lets a frame pass.
#[tactic(auto, unfolding(crate::specs::Vlan::passes_vlan))]
pub fn passes_vlan(regs: &RegFile, frame: &[u8]) -> bool
    ensures { result ≡ passes_vlan regs.now frame.now }
{
    !bits::vfe(regs) || !carries_tag(regs, frame) || is_listed(regs, frame)
}

/// Whether a frame passes by its CFI.
#[tactic(auto, unfolding(crate::specs::Vlan::passes_cfi))]
pub fn passes_cfi(profile: Profile, regs: &RegFile, frame: &[u8]) -> bool
    ensures { result ≡ passes_cfi profile regs.now frame.now }
{
    !bits::cfien(profile, regs) || !carries_tag(regs, frame) || bits::cfi(regs) == cfi_of(frame)
}

/// The CFI of a frame's tag.
fn cfi_of(frame: &[u8]) -> bool
    requires { TAGGED_OCTETS ≤ length frame.now }
    ensures { result ≡ cfi_of frame.now }
{
    u16::from_be_bytes([frame[14], frame[15]]) / CFI_BIT % 2 == 1
}

/// Whether the type of a frame is VET.
fn carries_tag(regs: &RegFile, frame: &[u8]) -> bool
    ensures { result ≡ carries_tag regs.now frame.now }
{
    frame.len() >= TAGGED_OCTETS
        && u32::from(u16::from_be_bytes([frame[12], frame[13]])) == bits::vet(regs)
}

/// Whether the VLAN filter table has the bit of the frame's identifier.
fn is_listed(regs: &RegFile, frame: &[u8]) -> bool
    requires { TAGGED_OCTETS ≤ length frame.now }
    ensures { result ≡ is_listed regs.now frame.now }
{
    let identifier = u16::from_be_bytes([frame[14], frame[15]]) % IDENTIFIERS;
    let word = bits::vfta(regs, (identifier / WORD_BITS) as u8);
    bits::is_set(word, identifier % WORD_BITS)
}
