//! The ring that a register belongs to.
ghost use Rattle.std.specs.Prelude.{◌≡◌};
ghost use Rattle.em_warnings.specs.Rings.{control_of, head_of, length_of, ring_of_control, ring_of_head, ring_of_tail};
ghost use Rattle.em_warnings.specs.Rings.{ring_asked, tail_of, where_enabled};

use em_inspect::{Side, SidedRing};
use em_journal::Machine;
use em_regs::Reg;

/// The ring whose tail a register is.
pub(crate) fn ring_of_tail(machine: &Machine, reg: Reg) -> Option<SidedRing>
    ensures { result ≡ ring_of_tail machine.now.present reg }
{
    match reg {
        Reg::Rdt => Some(SidedRing::rx(machine)),
        Reg::Tdt => Some(SidedRing::tx(machine)),
        _ => None,
    }
}

/// The ring that a register enables.
pub(crate) fn ring_of_control(machine: &Machine, reg: Reg) -> Option<SidedRing>
    ensures { result ≡ ring_of_control machine.now.present reg }
{
    match reg {
        Reg::Rctl => Some(SidedRing::rx(machine)),
        Reg::Tctl => Some(SidedRing::tx(machine)),
        _ => None,
    }
}

/// The ring whose head a register is.
pub(crate) fn ring_of_head(machine: &Machine, reg: Reg) -> Option<SidedRing>
    ensures { result ≡ ring_of_head machine.now.present reg }
{
    match reg {
        Reg::Rdh => Some(SidedRing::rx(machine)),
        Reg::Tdh => Some(SidedRing::tx(machine)),
        _ => None,
    }
}

/// The ring of whose tail a write of a register asks: of a tail always; of a length and of what enables the ring where it is
/// enabled then. Before, a driver may write them in any order.
pub(crate) fn ring_asked(machine: &Machine, reg: Reg) -> Option<SidedRing>
    ensures { result ≡ ring_asked machine.now.present reg }
{
    match reg {
        Reg::Rdlen | Reg::Rctl => where_enabled(SidedRing::rx(machine)),
        Reg::Tdlen | Reg::Tctl => where_enabled(SidedRing::tx(machine)),
        _ => ring_of_tail(machine, reg),
    }
}

/// A ring, if it is enabled.
fn where_enabled(ring: SidedRing) -> Option<SidedRing>
    ensures { result ≡ where_enabled ring }
{
    if ring.setup.enabled { Some(ring) } else { None }
}

/// The register that has a ring's tail.
pub(crate) fn tail_of(side: Side) -> Reg
    ensures { result ≡ tail_of side }
{
    match side {
        Side::Receive(_) => Reg::Rdt,
        Side::Transmit => Reg::Tdt,
    }
}

/// The register that has a ring's head.
pub(crate) fn head_of(side: Side) -> Reg
    ensures { result ≡ head_of side }
{
    match side {
        Side::Receive(_) => Reg::Rdh,
        Side::Transmit => Reg::Tdh,
    }
}

/// The register that enables a ring.
pub(crate) fn control_of(side: Side) -> Reg
    ensures { result ≡ control_of side }
{
    match side {
        Side::Receive(_) => Reg::Rctl,
        Side::Transmit => Reg::Tctl,
    }
}

/// The register of a ring's length.
pub(crate) fn length_of(side: Side) -> Reg
    ensures { result ≡ length_of side }
{
    match side {
        Side::Receive(_) => Reg::Rdlen,
        Side::Transmit => Reg::Tdlen,
    }
}
