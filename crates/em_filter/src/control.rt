//! MAC control frames, which the second profile filters (manual, chapter on receive description; IEEE 802.3, clause 31).
ghost use Rattle.std.specs.Prelude.{◌≡◌, ◌≤◌, length};
ghost use Rattle.em_filter.specs.Control.{is_control, is_other_control, is_pause, opcode_of, passes_dpf, passes_pmcf};

use crate::bits;
use em_regs::{Profile, RegFile};

/// A MAC control frame has these octets at least: two addresses, a type and an opcode.
const CONTROL_OCTETS: usize = 16;

/// The type of a MAC control frame, and the opcode of a pause frame.
const CONTROL_TYPE: u16 = 0x8808;

const PAUSE: u16 = 0x0001;

/// Whether a frame passes as a MAC control frame, whatever its address.
#[tactic(auto, unfolding(crate::specs::Control::passes_pmcf))]
pub(crate) fn passes_pmcf(profile: Profile, regs: &RegFile, frame: &[u8]) -> bool
    ensures { result ≡ passes_pmcf profile regs.now frame.now }
{
    bits::pmcf(profile, regs) && is_other_control(frame)
}

/// Whether a frame passes that would not as a pause frame.
#[tactic(auto, unfolding(crate::specs::Control::passes_dpf))]
pub(crate) fn passes_dpf(profile: Profile, regs: &RegFile, frame: &[u8]) -> bool
    ensures { result ≡ passes_dpf profile regs.now frame.now }
{
    !bits::dpf(profile, regs) || !is_pause(frame)
}

/// Whether it is a MAC control frame and no pause frame.
pub fn is_other_control(frame: &[u8]) -> bool
    ensures { result ≡ is_other_control frame.now }
{
    is_control(frame) && opcode_of(frame) != PAUSE
}

/// Whether it is a pause frame.
fn is_pause(frame: &[u8]) -> bool
    ensures { result ≡ is_pause frame.now }
{
    is_control(frame) && opcode_of(frame) == PAUSE
}

/// Whether its type is that of a MAC control frame.
fn is_control(frame: &[u8]) -> bool
    ensures { result ≡ is_control frame.now }
{
    frame.len() >= CONTROL_OCTETS && u16::from_be_bytes([frame[12], frame[13]]) == CONTROL_TYPE
}

/// The opcode of a MAC control frame.
fn opcode_of(frame: &[u8]) -> u16
    requires { CONTROL_OCTETS ≤ length frame.now }
    ensures { result ≡ opcode_of frame.now }
{
    u16::from_be_bytes([frame[14], frame[15]])
}
