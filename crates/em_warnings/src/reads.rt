//! The rule by which a read of a register has a warning.
ghost use Rattle.std.specs.Prelude.{◌≡◌};
ghost use Rattle.em_warnings.specs.Reads.{before_head, cleared_back, frame_waits, left_waiting, read_again, value_back};
ghost use Rattle.em_warnings.specs.Reads.{waits};

use crate::flaw::Flaw;
use crate::rules::RX_CAUSES;
use crate::warning::Warning;
use em_inspect::octets_at;
use em_journal::Machine;
use em_regs::{Reg, Ring};
use em_watch::{Sight, Watch, seen_back};

/// Behind the last of the steps back that are looked at.
const TOO_FAR: usize = 17;

/// What the rule `read-again` says of a read of ICR that gave 0: causes of receiving were cleared there, other events lie
/// between, and the frame still waits. The machine is as the read left it.
///
/// A read of 0 right behind the one that gave causes is how a driver learns that it is done, and has no warning.
pub fn read_again(machine: &Machine) -> Option<Warning>
    ensures { result ≡ read_again machine.now }
{
    let back = cleared_back(machine)?;
    left_waiting(machine, back)
}

/// How many steps back lead to where ICR last held causes.
fn cleared_back(machine: &Machine) -> Option<usize>
    ensures { result ≡ cleared_back machine.now }
{
    (1..TOO_FAR).find(|back| 0 < value_back(machine, Reg::Icr, *back))
}

/// The warning, where the causes that stood there so many steps back have a frame that still waits.
fn left_waiting(machine: &Machine, back: usize) -> Option<Warning>
    ensures { result ≡ left_waiting machine.now back }
{
    let causes = value_back(machine, Reg::Icr, back);
    let tail = value_back(machine, Reg::Rdt, back.saturating_sub(1));
    if 2 < back
        && 0 < causes & RX_CAUSES
        && tail == value_back(machine, Reg::Rdt, 0)
        && frame_waits(machine)
    {
        Some(Warning::ReadAgain { causes })
    } else {
        None
    }
}

/// What a register held so many steps back; where steps back do not lead so far, 0.
fn value_back(machine: &Machine, reg: Reg, back: usize) -> u32
    ensures { result ≡ value_back machine.now reg back }
{
    match seen_back(machine, Watch::Register(reg), back) {
        Some(Sight::Value(value)) => value,
        _ => 0,
    }
}

/// Whether a frame waits for the driver.
fn frame_waits(machine: &Machine) -> bool
    ensures { result ≡ frame_waits machine.now.present }
{
    let setup = machine.ring_rx();
    waits(machine, &setup.ring())
}

/// Whether one does in this ring.
fn waits(machine: &Machine, ring: &Ring) -> bool
    ensures { result ≡ waits ring.now machine.now.present.base machine.now.present.memory }
{
    let octets = octets_at(machine, ring, before_head(ring));
    match octets {
        Some(octets) => 0 < ring.count && Flaw::StatusLeft.is_in(&octets),
        None => false,
    }
}

/// The descriptor before the head, going round.
fn before_head(ring: &Ring) -> u32
    ensures { result ≡ before_head ring.now }
{
    if ring.head == 0 {
        ring.count.saturating_sub(1)
    } else {
        ring.head - 1
    }
}
