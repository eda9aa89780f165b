//! The rule about octets that a driver writes while they are the adapter's.
ghost use Rattle.std.specs.Prelude.{◌≡◌};
ghost use Rattle.em_warnings.specs.Owned as owned;

use crate::descriptors::place;
use crate::overlaps::owned_buffer;
use crate::rings::head_of;
use crate::warning::Warning;
use em_inspect::{Extent, Owner, SidedRing, owner_of};
use em_journal::Machine;
use em_regs::DESCRIPTOR_OCTETS;

/// Octets that were written lie in a descriptor of the adapter's, or in its buffer, of a ring that is enabled: of the receive ring,
/// or else of the transmit ring. The machine is as the write left it.
pub fn written_while_owned(machine: &Machine, write: Extent) -> Option<Warning>
    ensures { result ≡ owned.written_while_owned machine.now.present write }
{
    match in_ring(machine, &SidedRing::rx(machine), &write) {
        Some(warning) => Some(warning),
        None => in_ring(machine, &SidedRing::tx(machine), &write),
    }
}

/// The same of one ring.
fn in_ring(machine: &Machine, ring: &SidedRing, write: &Extent) -> Option<Warning>
    ensures { result ≡ owned.in_ring machine.now.present.base machine.now.present.memory write.now ring.now }
{
    if !ring.setup.enabled {
        return None;
    }
    let index = first_written(machine, ring, write)?;
    Some(Warning::WrittenWhileOwned {
        head: head_of(ring.side),
        index,
        at: ring.setup.descriptor_at(index),
    })
}

/// The first descriptor of a ring, from the head on and round the ring's end, that is written so.
fn first_written(machine: &Machine, ring: &SidedRing, write: &Extent) -> Option<u32>
    ensures { result ≡ owned.first_written machine.now.present.base machine.now.present.memory write.now ring.now }
{
    match written_from(machine, ring, write, ring.setup.head, ring.setup.count) {
        Some(index) => Some(index),
        None => written_from(machine, ring, write, 0, ring.setup.head),
    }
}

/// The first such from one index on, below another.
fn written_from(
    machine: &Machine,
    ring: &SidedRing,
    write: &Extent,
    from: u32,
    to: u32,
) -> Option<u32>
    ensures { result
        ≡ owned.written_from machine.now.present.base machine.now.present.memory write.now ring.now from to }
{
    (from..to).find(|index| is_written(machine, ring, write, *index))
}

/// Whether a descriptor is the adapter's, and octets of it or of its buffer are written.
fn is_written(machine: &Machine, ring: &SidedRing, write: &Extent, index: u32) -> bool
    ensures { result
        ≡ owned.is_written machine.now.present.base machine.now.present.memory write.now ring.now index }
{
    match owner_of(&ring.setup, index) {
        Owner::Adapter => {
            write.overlaps(&extent_at(ring, index)) || is_in_buffer(machine, ring, write, index)
        }
        Owner::Driver => false,
    }
}

/// Whether octets of the buffer of a descriptor of the adapter's are written.
fn is_in_buffer(machine: &Machine, ring: &SidedRing, write: &Extent, index: u32) -> bool
    ensures { result
        ≡ owned.is_in_buffer machine.now.present.base machine.now.present.memory write.now ring.now index }
{
    match owned_buffer(machine, ring, index) {
        Some(buffer) => write.overlaps(&buffer),
        None => false,
    }
}

/// Where a descriptor lies that lies in memory.
fn extent_at(ring: &SidedRing, index: u32) -> Extent
    ensures { result ≡ owned.extent_at ring.now index }
{
    Extent {
        at: place(&ring.setup, index),
        size: DESCRIPTOR_OCTETS as u64,
    }
}
