//! The rule about receive buffers that lie over each other.
ghost use Rattle.std.specs.Prelude.{◌≡◌, find};
ghost use Rattle.std.specs.List.{range_with_len};
ghost use Rattle.em_warnings.specs.Overlaps as overlaps;

use crate::before::value_before;
use crate::warning::Warning;
use em_inspect::{Extent, Owner, SidedRing, owner_of};
use em_journal::Machine;
use em_regs::Reg;

/// How many descriptors a ring has at most whose buffers are compared: each that is given is compared with all others.
const MOST_COMPARED: u32 = 1024;

/// The register is RDT, and gives the adapter a descriptor whose buffer lies over that of another one of the adapter's.
pub(crate) fn buffers_overlap(machine: &Machine, tail: Reg) -> Option<Warning>
    ensures { result ≡ overlaps.buffers_overlap machine.now tail }
{
    match tail {
        Reg::Rdt => {
            let was = value_before(machine, tail)?;
            given_over(machine, &SidedRing::rx(machine), was)
        }
        _ => None,
    }
}

/// The first descriptor that was given since the tail was another, and has such a buffer.
fn given_over(machine: &Machine, ring: &SidedRing, was: u32) -> Option<Warning>
    ensures { result ≡ overlaps.given_over machine.now.present.base machine.now.present.memory ring.now was }
{
    if MOST_COMPARED < ring.setup.count {
        return None;
    }
    let index = first_over(machine, ring, was)?;
    Some(Warning::BuffersOverlap {
        tail: Reg::Rdt,
        index,
        at: ring.setup.descriptor_at(index),
    })
}

/// Its index.
fn first_over(machine: &Machine, ring: &SidedRing, was: u32) -> Option<u32>
    ensures { result ≡ overlaps.first_over machine.now.present.base machine.now.present.memory ring.now was }
{
    if was <= ring.setup.tail {
        return over_from(machine, ring, was, ring.setup.tail);
    }
    match over_from(machine, ring, was, ring.setup.count) {
        Some(index) => Some(index),
        None => over_from(machine, ring, 0, ring.setup.tail),
    }
}

/// The first such from one index on, below another.
fn over_from(machine: &Machine, ring: &SidedRing, from: u32, to: u32) -> Option<u32>
    ensures { result ≡ overlaps.over_from machine.now.present.base machine.now.present.memory ring.now from to }
{
    (from..to).find(|index| is_over(machine, ring, *index))
}

/// Whether a descriptor is the adapter's, and its buffer lies over that of another one of the adapter's.
fn is_over(machine: &Machine, ring: &SidedRing, index: u32) -> bool
    ensures { result ≡ overlaps.is_over machine.now.present.base machine.now.present.memory ring.now index }
{
    match owned_buffer(machine, ring, index) {
        Some(buffer) => lowest_under(machine, ring, index, &buffer).is_some(),
        None => false,
    }
}

/// The lowest other descriptor of the adapter's whose buffer a buffer lies over.
fn lowest_under(machine: &Machine, ring: &SidedRing, index: u32, buffer: &Extent) -> Option<u32>
    ensures { result ≡ find (overlaps.is_under machine.now.present.base machine.now.present.memory ring.now index buffer.now)
        (range_with_len 0 ring.now.setup.count) }
{
    (0..ring.setup.count).find(|other| is_under(machine, ring, index, buffer, *other))
}

/// Whether another descriptor is the adapter's, and a buffer lies over its own.
fn is_under(machine: &Machine, ring: &SidedRing, index: u32, buffer: &Extent, other: u32) -> bool
    ensures { result
        ≡ overlaps.is_under machine.now.present.base machine.now.present.memory ring.now index buffer.now other }
{
    if other == index {
        return false;
    }
    match owned_buffer(machine, ring, other) {
        Some(claim) => buffer.overlaps(&claim),
        None => false,
    }
}

/// The buffer of a descriptor of the adapter's; none where it is not the adapter's, or has none.
pub(crate) fn owned_buffer(machine: &Machine, ring: &SidedRing, index: u32) -> Option<Extent>
    ensures { result ≡ overlaps.owned_buffer machine.now.present.base machine.now.present.memory ring.now index }
{
    match owner_of(&ring.setup, index) {
        Owner::Adapter => ring.claim(machine, index),
        Owner::Driver => None,
    }
}
