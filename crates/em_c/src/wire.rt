//! The wire, the link, the engines and the interrupt line.
ghost use Rattle.std.specs.Prelude.{◌≡◌, ◌<◌, OnOk, length};
ghost use Rattle.em_step.specs.Event.{plain, arrives, links, receives, transmits};
ghost use Rattle.em_c.specs.Refused.{number, told, Shows};
ghost use Rattle.em_c.specs.Calls.{Calls, CallsAndTells};
ghost use Rattle.em_c.specs.Looks.{asked, laid_into, length_of, line, looping, wire_count, wire_frame};

use crate::handle::EmMachine;
use crate::note::EmNote;
use crate::refused::{Refused, number, tell};
use crate::room::lay;
use em_journal::Machine;
use em_step::Event;
use std::alloc::Global;

/// A frame arrives from the wire; what became of it is told.
#[unsafe(no_mangle)]
pub extern "C" fn em_arrive(
    alloc: Global,
    machine: &mut EmMachine,
    frame: &[u8],
    event: &mut EmNote,
) -> u32
    ensures { CallsAndTells machine.old.sealed.held (arrives frame.now) event.old result event.new
        machine.new.sealed.held }
{
    tell(machine.perform_noted(alloc, Event::Arrive(frame)), event)
}

/// The link goes up, or down.
#[unsafe(no_mangle)]
pub extern "C" fn em_set_link(alloc: Global, machine: &mut EmMachine, up: bool) -> u32
    ensures { Calls machine.old.sealed.held (links up) result machine.new.sealed.held }
{
    number(machine.perform(alloc, Event::Link(up)))
}

/// The receive engine handles a descriptor; what it did is told.
#[unsafe(no_mangle)]
pub extern "C" fn em_rx_step(alloc: Global, machine: &mut EmMachine, event: &mut EmNote) -> u32
    ensures { CallsAndTells machine.old.sealed.held receives event.old result event.new machine.new.sealed.held }
{
    tell(machine.perform_noted(alloc, Event::RxStep), event)
}

/// The transmit engine handles a descriptor; what it did is told.
#[unsafe(no_mangle)]
pub extern "C" fn em_tx_step(alloc: Global, machine: &mut EmMachine, event: &mut EmNote) -> u32
    ensures { CallsAndTells machine.old.sealed.held transmits event.old result event.new machine.new.sealed.held }
{
    tell(machine.perform_noted(alloc, Event::TxStep), event)
}

/// The interrupt line: 1 where it is asserted, else 0.
#[unsafe(no_mangle)]
pub extern "C" fn em_line(machine: &mut EmMachine, level: &mut u32) -> u32
    ensures level { Shows (asked machine.old.sealed.held line) level.old result level.new }
    ensures same { machine.new.sealed.held ≡ machine.old.sealed.held }
{
    tell(line(machine), level)
}

/// Whether frames that are sent come back: 1, else 0. Who carries the wire lets them arrive.
#[unsafe(no_mangle)]
pub extern "C" fn em_loops(machine: &mut EmMachine, loops: &mut u32) -> u32
    ensures loops { Shows (asked machine.old.sealed.held looping) loops.old result loops.new }
    ensures same { machine.new.sealed.held ≡ machine.old.sealed.held }
{
    tell(looping(machine), loops)
}

/// How many frames were sent.
#[unsafe(no_mangle)]
pub extern "C" fn em_wire_count(machine: &mut EmMachine, count: &mut usize) -> u32
    ensures count { Shows (asked machine.old.sealed.held wire_count) count.old result count.new }
    ensures same { machine.new.sealed.held ≡ machine.old.sealed.held }
{
    tell(wire_count(machine), count)
}

/// Copies a frame out that was sent, the first one at 0, and tells how many octets it has: also where there is no room
/// for them, and then nothing is copied.
#[unsafe(no_mangle)]
pub extern "C" fn em_wire_frame(
    machine: &mut EmMachine,
    index: usize,
    out: &mut [u8],
    octets: &mut usize,
) -> u32
    ensures frame { Shows (laid_into out.old (asked machine.old.sealed.held (wire_frame index))) out.old result
        out.new }
    ensures octets { octets.new ≡ told octets.old (length_of (asked machine.old.sealed.held (wire_frame index))) }
    ensures same { machine.new.sealed.held ≡ machine.old.sealed.held }
{
    number(copy_frame(machine, index, out, octets))
}

/// The interrupt line.
fn line(machine: &mut EmMachine) -> Result<u32, Refused>
    ensures level { result ≡ asked machine.old.sealed.held line }
    ensures same { machine.new.sealed.held ≡ machine.old.sealed.held }
{
    let held = machine.held()?;
    let asserted = held.looked_at().line();
    Ok(if asserted { 1 } else { 0 })
}

/// Whether frames that are sent come back.
fn looping(machine: &mut EmMachine) -> Result<u32, Refused>
    ensures loops { result ≡ asked machine.old.sealed.held looping }
    ensures same { machine.new.sealed.held ≡ machine.old.sealed.held }
{
    let held = machine.held()?;
    let loops = held.looked_at().loops();
    Ok(if loops { 1 } else { 0 })
}

/// How many frames were sent.
fn wire_count(machine: &mut EmMachine) -> Result<usize, Refused>
    ensures count { result ≡ asked machine.old.sealed.held wire_count }
    ensures same { machine.new.sealed.held ≡ machine.old.sealed.held }
{
    let held = machine.held()?;
    Ok(held.looked_at().wire_len())
}

/// Copies a frame out that was sent.
fn copy_frame(
    machine: &mut EmMachine,
    index: usize,
    out: &mut [u8],
    octets: &mut usize,
) -> Result<(), Refused>
    ensures outcome { number result ≡ number (laid_into out.old (asked machine.old.sealed.held (wire_frame index))) }
    ensures frame { out.new ≡ told out.old (laid_into out.old (asked machine.old.sealed.held (wire_frame index))) }
    ensures octets { octets.new ≡ told octets.old (length_of (asked machine.old.sealed.held (wire_frame index))) }
    ensures same { machine.new.sealed.held ≡ machine.old.sealed.held }
{
    let held = machine.held()?;
    lay_frame(held.looked_at(), index, out, octets)
}

/// Copies a frame out that a machine sent.
pub fn lay_frame(
    machine: &Machine,
    index: usize,
    out: &mut [u8],
    octets: &mut usize,
) -> Result<(), Refused>
    ensures outcome { number result ≡ number (laid_into out.old (wire_frame index machine.now)) }
    ensures frame { out.new ≡ told out.old (laid_into out.old (wire_frame index machine.now)) }
    ensures octets { octets.new ≡ told octets.old (length_of (wire_frame index machine.now)) }
    ensures below { OnOk result (index < length machine.now.present.wire) }
{
    match machine.wire_frame(index) {
        Some(frame) => lay(frame, out, octets),
        None => Err(Refused::NoFrame),
    }
}
