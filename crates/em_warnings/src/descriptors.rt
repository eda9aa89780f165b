//! The first of the adapter's descriptors that has a flaw.
ghost use Rattle.std.specs.Prelude.{◌≡◌, ◌≤◌, ◌%◌, ◌^◌, ℕ, None};
ghost use Rattle.em_regs.specs.Ring.{descriptor_at};
ghost use Rattle.em_inspect.specs.Ring.{octets_at};
ghost use Rattle.em_warnings.specs.Descriptors.{first_flawed, first_from, has_flaw, is_excused, is_flawed};

use crate::flaw::Flaw;
use crate::written::is_rewritten;
use em_inspect::{Owner, octets_at, owner_of};
use em_journal::Machine;
use em_regs::{DESCRIPTOR_OCTETS, Ring};

/// The first descriptor of a ring, from the head on and round the ring's end, that is the adapter's, lies in guest
/// memory, and has the flaw.
pub(crate) fn first_flawed(machine: &Machine, ring: &Ring, flaw: Flaw) -> Option<u32>
    ensures { result ≡ first_flawed ring.now machine.now flaw }
{
    match first_from(machine, ring, flaw, ring.head, ring.count) {
        Some(index) => Some(index),
        None => first_from(machine, ring, flaw, 0, ring.head),
    }
}

/// The first such from one index on, below another.
fn first_from(machine: &Machine, ring: &Ring, flaw: Flaw, from: u32, to: u32) -> Option<u32>
    ensures { result ≡ first_from ring.now machine.now flaw from to }
{
    match u32::try_from(held(machine, ring)) {
        Ok(held) => first_below(machine, ring, flaw, from, to.min(held)),
        Err(_) => first_below(machine, ring, flaw, from, to),
    }
}

/// The same, where all of these are looked at.
fn first_below(machine: &Machine, ring: &Ring, flaw: Flaw, from: u32, to: u32) -> Option<u32>
    ensures { result ≡ first_from ring.now machine.now flaw from to }
{
    (from..to).find(|index| is_flawed(machine, ring, flaw, *index))
}

/// How many of a ring's first descriptors end before guest memory does, if it had as many. None behind them lies in memory,
/// so a ring past its end, which a register may name, is not gone over.
fn held(machine: &Machine, ring: &Ring) -> u64
    ensures { (i : ℕ) → result ≤ i → octets_at ring.now machine.now.present.base machine.now.present.memory i ≡ None }
{
    machine.memory_end().saturating_sub(ring.base) / 16
}

/// Whether the descriptor of an index is such.
fn is_flawed(machine: &Machine, ring: &Ring, flaw: Flaw, index: u32) -> bool
    ensures { result ≡ is_flawed ring.now machine.now flaw index }
{
    match owner_of(ring, index) {
        Owner::Adapter => match octets_at(machine, ring, index) {
            Some(octets) => has_flaw(machine, ring, flaw, index, &octets),
            None => false,
        },
        Owner::Driver => false,
    }
}

/// Whether a descriptor of these octets has the flaw.
fn has_flaw(
    machine: &Machine,
    ring: &Ring,
    flaw: Flaw,
    index: u32,
    octets: &[u8; DESCRIPTOR_OCTETS],
) -> bool
    ensures { result ≡ has_flaw machine.now flaw (descriptor_at ring.now index) octets.now }
{
    flaw.is_in(octets) && !is_excused(machine, flaw, place(ring, index))
}

/// Where a descriptor lies that lies in memory.
pub(crate) fn place(ring: &Ring, index: u32) -> u64
    ensures { result ≡ descriptor_at ring.now index % 2 ^ 64 }
{
    ring.base.wrapping_add(16 * u64::from(index))
}

/// Whether it is excused, since the driver wrote it and goes by the head.
fn is_excused(machine: &Machine, flaw: Flaw, at: u64) -> bool
    ensures { result ≡ is_excused machine.now flaw at }
{
    match flaw {
        Flaw::SentBefore => is_rewritten(machine, at),
        Flaw::Unwritten | Flaw::StatusLeft => false,
    }
}
