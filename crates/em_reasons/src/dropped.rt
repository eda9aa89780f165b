//! Why a frame was dropped.
ghost use Rattle.std.specs.Prelude.{◌≡◌, Some, if◌then◌else◌};
ghost use Rattle.em_filter.specs.Vlan.{tagged};
ghost use Rattle.em_rx.specs.Frame.{len_of};
ghost use Rattle.em_step.specs.Arrival.{keeps_sequence, kept_frame};
ghost use Rattle.em_reasons.specs.Dropped.{IsDropped, from_of, rejected, to_of, too_long, unfiltered, why};

use crate::frame::{cfi_of, identifier_of, octet};
use crate::registers::{has, registers};
use bitflags::Flags;
use em_filter::{
    CHECK_OCTETS, Kind, hash_of, is_other_control, kind_of, longest, passes_address, passes_cfi,
    passes_vlan, tagged,
};
use em_journal::Machine;
use em_regs::{Profile, Rctl, Reg};
use em_step::Reason;

/// The octets of a tag that is taken out of a frame.
const TAG_OCTETS: u64 = 4;

/// Why a frame was dropped. The tests are made in this order, and the first that holds is the reason.
#[derive(Clone, Copy, Debug, PartialEq, Eq)]
pub enum Dropped {
    /// The link is down.
    Down,
    /// RCTL.EN is clear.
    Disabled,
    /// No filter has its destination, which is a unicast address.
    Unicast { to: [u8; 6] },
    /// No filter has its destination, which is the address of a group with this hash.
    Multicast { to: [u8; 6], hash: u16 },
    /// No filter has its destination, which is the broadcast address, with this hash.
    Broadcast { hash: u16 },
    /// It is a MAC control frame other than a pause frame, to an address with this hash: no filter has the address, and
    /// RCTL.PMCF is clear.
    Control { to: [u8; 6], hash: u16 },
    /// It has fewer than 64 octets, the frame check sequence among them.
    Undersize { octets: u64 },
    /// It has more octets than there may be by RCTL.LPE, the frame check sequence among them (the first profile).
    Oversize { octets: u64, most: u32 },
    /// It has more octets than there may be by RCTL.LPE and SBP, the frame check sequence among them (the second profile).
    Overlong { octets: u64, most: u32 },
    /// Its VLAN is not in the VFTA.
    Vlan { identifier: u16 },
    /// The CFI of its tag is this one, and not RCTL.CFI.
    Cfi { cfi: bool },
    /// It is a pause frame, and RCTL.DPF is set.
    Pause,
    /// The FIFO, in which so many frames wait, has no room for so many octets.
    Missed { octets: u64, frames: usize },
}

/// Why a machine dropped a frame and answered this reason. A frame that is dropped leaves what the tests look at.
pub fn why_dropped(machine: &Machine, frame: &[u8], reason: Reason) -> Dropped
    ensures { IsDropped machine.now.present frame.now reason → why machine.now.present frame.now ≡ Some result }
{
    let octets = frame.len() as u64 + CHECK_OCTETS as u64;
    match reason {
        Reason::Down => Dropped::Down,
        Reason::Disabled => Dropped::Disabled,
        Reason::Rejected => rejected(machine, frame),
        Reason::Undersize => Dropped::Undersize { octets },
        Reason::Oversize => too_long(machine, octets),
        Reason::Missed => Dropped::Missed {
            octets: stored_octets(machine, frame),
            frames: machine.frames(),
        },
    }
}

/// A frame of so many octets is too long.
fn too_long(machine: &Machine, octets: u64) -> Dropped
    ensures { result ≡ too_long machine.now.present octets }
{
    let profile = machine.profile();
    let most = longest(profile, registers(machine));
    match profile {
        Profile::Table => Dropped::Oversize { octets, most },
        Profile::Adapter => Dropped::Overlong { octets, most },
    }
}

/// Why the filters reject a frame that they reject.
fn rejected(machine: &Machine, frame: &[u8]) -> Dropped
    ensures { result ≡ rejected machine.now.present.profile machine.now.present.registers frame.now }
{
    let (profile, registers) = (machine.profile(), registers(machine));
    let to = destination(frame);
    if !passes_address(profile, registers, &to, &source(frame), frame) {
        unfiltered(machine, frame, to)
    } else if !passes_vlan(registers, frame) {
        Dropped::Vlan {
            identifier: identifier_of(frame),
        }
    } else if !passes_cfi(profile, registers, frame) {
        Dropped::Cfi { cfi: cfi_of(frame) }
    } else {
        Dropped::Pause
    }
}

/// That no filter has the destination of a frame.
fn unfiltered(machine: &Machine, frame: &[u8], to: [u8; 6]) -> Dropped
    requires { to ≡ to_of frame.now }
    ensures { result ≡ unfiltered machine.now.present.profile machine.now.present.registers frame.now }
{
    let hash = hash_of(registers(machine), &to);
    if matches!(machine.profile(), Profile::Adapter) && is_other_control(frame) {
        Dropped::Control { to, hash }
    } else {
        match kind_of(&to) {
            Kind::Unicast => Dropped::Unicast { to },
            Kind::Multicast => Dropped::Multicast { to, hash },
            Kind::Broadcast => Dropped::Broadcast { hash },
        }
    }
}

/// The destination of a frame.
fn destination(frame: &[u8]) -> [u8; 6]
    ensures { result ≡ to_of frame.now }
{
    [
        octet(frame, 0),
        octet(frame, 1),
        octet(frame, 2),
        octet(frame, 3),
        octet(frame, 4),
        octet(frame, 5),
    ]
}

/// The source of a frame.
fn source(frame: &[u8]) -> [u8; 6]
    ensures { result ≡ from_of frame.now }
{
    [
        octet(frame, 6),
        octet(frame, 7),
        octet(frame, 8),
        octet(frame, 9),
        octet(frame, 10),
        octet(frame, 11),
    ]
}

/// How many octets a frame has as it is stored: a tagged one without its tag, and with its check sequence where that is
/// kept.
fn stored_octets(machine: &Machine, frame: &[u8]) -> u64
    ensures { result ≡ len_of (kept_frame machine.now.present frame.now) }
{
    let octets = frame.len() as u64 + check_octets(machine);
    if is_tagged(machine, frame) {
        octets - TAG_OCTETS
    } else {
        octets
    }
}

/// Whether a frame is tagged: its tag is removed where it is stored.
fn is_tagged(machine: &Machine, frame: &[u8]) -> bool
    ensures { result ≡ tagged machine.now.present.registers frame.now }
{
    tagged(registers(machine), frame)
}

/// Whether frames are stored with their check sequences.
fn keeps_sequence(machine: &Machine) -> bool
    ensures { result ≡ keeps_sequence machine.now.present }
{
    matches!(machine.profile(), Profile::Adapter) && !has(machine, Reg::Rctl, Rctl::SECRC.bits())
}

/// How many octets of its check sequence are stored with a frame.
fn check_octets(machine: &Machine) -> u64
    ensures { result ≡ (if keeps_sequence machine.now.present then 4 else 0) }
{
    if keeps_sequence(machine) {
        CHECK_OCTETS as u64
    } else {
        0
    }
}
