//! The rings as the registers set them up, and whose each descriptor is.
ghost use Rattle.std.specs.Prelude.{◌≡◌};
ghost use Rattle.em_c.specs.Refused.{Shows};
ghost use Rattle.em_c.specs.Looks.{asked};
ghost use Rattle.em_c.specs.Rings.{buffer_of, descriptor_in, descriptor_of, is_told, ring_in, ring_told, sided};

use crate::handle::EmMachine;
use crate::refused::{Refused, tell};
use em_inspect::{Owner, Side, SidedRing, octets_at, owner_of};
use em_journal::Machine;
use em_regs::{DESCRIPTOR_OCTETS, Ring};

/// A ring, as the registers set it up.
#[repr(C)]
#[derive(Clone, Copy)]
pub struct EmRingSetup {
    /// Where descriptor 0 lies.
    pub base: u64,
    /// How many descriptors the ring has.
    pub count: u32,
    /// RDH or TDH.
    pub head: u32,
    /// RDT or TDT.
    pub tail: u32,
    /// How many octets each buffer of the receive ring has; of the transmit ring 0.
    pub buffer: u32,
    /// 1 where the engine handles descriptors, RCTL.EN or TCTL.EN; else 0.
    pub enabled: u32,
}

/// A descriptor of a ring.
#[repr(C)]
#[derive(Clone, Copy)]
pub struct EmDescriptor {
    /// Its octets, as they lie in guest memory.
    pub octets: [u8; DESCRIPTOR_OCTETS],
    /// 1 where it is the adapter's, 0 where it is the driver's.
    pub adapters: u32,
}

/// How the registers set a ring up: 1 is the receive ring, 2 the transmit ring.
#[unsafe(no_mangle)]
pub extern "C" fn em_ring(machine: &mut EmMachine, side: u32, setup: &mut EmRingSetup) -> u32
    ensures setup { Shows (asked machine.old.sealed.held (ring_in side)) setup.old result setup.new }
    ensures same { machine.new.sealed.held ≡ machine.old.sealed.held }
{
    tell(ring_in(machine, side), setup)
}

/// The descriptor at an index of a ring, and whose it is.
#[unsafe(no_mangle)]
pub extern "C" fn em_ring_descriptor(
    machine: &mut EmMachine,
    side: u32,
    index: u32,
    descriptor: &mut EmDescriptor,
) -> u32
    ensures descriptor { Shows (asked machine.old.sealed.held (descriptor_in side index)) descriptor.old result
        descriptor.new }
    ensures same { machine.new.sealed.held ≡ machine.old.sealed.held }
{
    tell(descriptor_in(machine, side, index), descriptor)
}

/// How a ring of the machine that is held is set up.
fn ring_in(machine: &mut EmMachine, side: u32) -> Result<EmRingSetup, Refused>
    ensures setup { result ≡ asked machine.old.sealed.held (ring_in side) }
    ensures same { machine.new.sealed.held ≡ machine.old.sealed.held }
{
    let held = machine.held()?;
    match sided(held.looked_at(), side) {
        Ok(ring) => Ok(ring_told(&ring)),
        Err(refused) => Err(refused),
    }
}

/// A descriptor of the machine that is held.
fn descriptor_in(machine: &mut EmMachine, side: u32, index: u32) -> Result<EmDescriptor, Refused>
    ensures descriptor { result ≡ asked machine.old.sealed.held (descriptor_in side index) }
    ensures same { machine.new.sealed.held ≡ machine.old.sealed.held }
{
    let held = machine.held()?;
    descriptor_of(held.looked_at(), side, index)
}

/// The ring of a number.
pub fn sided(machine: &Machine, side: u32) -> Result<SidedRing, Refused>
    ensures { result ≡ sided side machine.now }
{
    match side {
        1 => Ok(SidedRing::rx(machine)),
        2 => Ok(SidedRing::tx(machine)),
        _ => Err(Refused::NoRing),
    }
}

/// A ring, as C sees it.
fn ring_told(ring: &SidedRing) -> EmRingSetup
    ensures { result ≡ ring_told ring.now }
{
    EmRingSetup {
        base: ring.setup.base,
        count: ring.setup.count,
        head: ring.setup.head,
        tail: ring.setup.tail,
        buffer: buffer_of(ring.side),
        enabled: if ring.setup.enabled { 1 } else { 0 },
    }
}

/// How many octets each buffer of a ring has, by the registers.
fn buffer_of(side: Side) -> u32
    ensures { result ≡ buffer_of side }
{
    match side {
        Side::Receive(octets) => octets,
        Side::Transmit => 0,
    }
}

/// A descriptor of a machine.
fn descriptor_of(machine: &Machine, side: u32, index: u32) -> Result<EmDescriptor, Refused>
    ensures { result ≡ descriptor_in side index machine.now }
{
    let ring = sided(machine, side)?;
    if index >= ring.setup.count {
        return Err(Refused::NoDescriptor);
    }
    match octets_at(machine, &ring.setup, index) {
        Some(octets) => Ok(EmDescriptor {
            octets,
            adapters: is_told(&ring.setup, index),
        }),
        None => Err(Refused::Range),
    }
}

/// Whether a descriptor is the adapter's, as a number.
fn is_told(ring: &Ring, index: u32) -> u32
    ensures { result ≡ is_told ring.now index }
{
    match owner_of(ring, index) {
        Owner::Adapter => 1,
        Owner::Driver => 0,
    }
}
