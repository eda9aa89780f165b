//! Why an event was refused.
ghost use Rattle.std.specs.Prelude.{◌≡◌, Err, Some, length};
ghost use Rattle.em_regs.specs.Setup.{rx_setup, tx_setup};
ghost use Rattle.em_rx.specs.Fifo.{first};
ghost use Rattle.em_step.specs.Event.{plain};
ghost use Rattle.em_step.specs.Step.{step};
ghost use Rattle.em_reasons.specs.Refused.{refused_descriptor, refused_receive, refused_transmit, too_long};
ghost use Rattle.em_tx.specs.Control.{as_read};
ghost use Rattle.em_reasons.specs.Refused.{bounds_of, memory_of, refused_write, why};

use em_inspect::octets_at;
use em_journal::Machine;
use em_regs::{DESCRIPTOR_OCTETS, Profile, TxSetup};
use em_rx::RxDescriptor;
use em_step::{Event, Refusal};
use em_tx::TxDescriptor;

/// Where guest memory lies: the address of its first octet, and the one behind its last.
#[derive(Clone, Copy, Debug, PartialEq, Eq)]
pub struct Bounds {
    pub base: u64,
    pub end: u64,
}

/// Why an event was refused. The tests of an event are made in this order, and the first that holds is the reason.
#[derive(Clone, Copy, Debug, PartialEq, Eq)]
pub enum Refused {
    /// No register lies at the offset.
    NoRegister {
        offset: u32,
    },
    /// So many octets from an address on leave guest memory, which lies there.
    Range {
        at: u64,
        octets: u64,
        memory: Bounds,
    },
    /// A memory write has no octet, or more than 16,384.
    WriteLength {
        octets: u64,
    },
    /// A frame has fewer than 14 octets, or more than 20,000.
    FrameLength {
        octets: u64,
    },
    /// The descriptor at RDH leaves guest memory.
    RxDescriptor {
        index: u32,
        at: u128,
        memory: Bounds,
    },
    /// What is to go of the first frame, which has so many octets, into the buffer of the descriptor at RDH leaves
    /// guest memory.
    RxBuffer {
        index: u32,
        at: u128,
        buffer: u64,
        size: u32,
        frame: u64,
        memory: Bounds,
    },
    /// The descriptor at TDH leaves guest memory.
    TxDescriptor {
        index: u32,
        at: u128,
        memory: Bounds,
    },
    /// The descriptor at TDH is extended (DEXT).
    Extended {
        index: u32,
        at: u128,
    },
    /// The octets of the descriptor at TDH are, with those that are gathered, more than 16,380 (the first profile).
    TooLong {
        index: u32,
        at: u128,
        octets: u16,
    },
    /// The octets of the descriptor at TDH are more than 16,288, or with those that are gathered more than 16,380 (the
    /// second profile, in which a descriptor with the address 0 has none).
    Overlong {
        index: u32,
        at: u128,
        octets: u16,
    },
    /// The buffer of the descriptor at TDH leaves guest memory.
    TxBuffer {
        index: u32,
        at: u128,
        buffer: u64,
        octets: u16,
        memory: Bounds,
    },
    /// The host refused memory that the event takes.
    Memory,
}

impl Refused {
    /// Where guest memory lies, for a reason that something leaves it.
    pub(crate) fn memory(&self) -> Option<Bounds>
        ensures { result ≡ memory_of self.now }
    {
        match self {
            Refused::Range { memory, .. } => Some(*memory),
            Refused::RxDescriptor { memory, .. } => Some(*memory),
            Refused::RxBuffer { memory, .. } => Some(*memory),
            Refused::TxDescriptor { memory, .. } => Some(*memory),
            Refused::TxBuffer { memory, .. } => Some(*memory),
            _ => None,
        }
    }
}

/// Where a machine's guest memory lies.
fn bounds_of(machine: &Machine) -> Bounds
    ensures { result ≡ bounds_of machine.now.present }
{
    Bounds {
        base: machine.memory_base(),
        end: machine.memory_end(),
    }
}

/// Why a machine refused an event with this refusal. A refused event changes nothing, so it is asked of the machine
/// afterwards.
pub fn why_refused(machine: &Machine, event: Event<'_>, refusal: Refusal) -> Refused
    ensures memory { refusal ≡ Refusal.Memory → result ≡ Refused.Memory }
    ensures first { step machine.now.present (plain event.entry) ≡ Err refusal
        → why machine.now.present (plain event.entry) ≡ Some result }
{
    if matches!(refusal, Refusal::Memory) {
        return Refused::Memory;
    }
    match event {
        Event::Read(offset) => Refused::NoRegister { offset },
        Event::Write(offset, _) => Refused::NoRegister { offset },
        Event::Poke(at, octets) => refused_write(machine, at, octets.len() as u64),
        Event::Arrive(frame) => Refused::FrameLength {
            octets: frame.len() as u64,
        },
        // a change of the link is never refused
        Event::Link(_) => Refused::Memory,
        Event::RxStep => refused_receive(machine),
        Event::TxStep => refused_transmit(machine, refusal),
    }
}

/// Why a memory write was refused.
fn refused_write(machine: &Machine, at: u64, octets: u64) -> Refused
    ensures { result ≡ refused_write (bounds_of machine.now.present) at octets }
{
    let memory = bounds_of(machine);
    if at < memory.base || u128::from(memory.end) < u128::from(at) + u128::from(octets) {
        Refused::Range { at, octets, memory }
    } else {
        Refused::WriteLength { octets }
    }
}

/// Why a receive step was refused.
fn refused_receive(machine: &Machine) -> Refused
    ensures { result ≡ refused_receive (rx_setup machine.now.present.registers) machine.now.present.base
        machine.now.present.memory machine.now.present.fifo }
{
    let setup = machine.ring_rx();
    let ring = setup.ring();
    let index = setup.head;
    let at = ring.descriptor_at(index);
    let memory = bounds_of(machine);
    match octets_at(machine, &ring, index) {
        None => Refused::RxDescriptor { index, at, memory },
        Some(octets) => Refused::RxBuffer {
            index,
            at,
            buffer: RxDescriptor::read(&octets).address(),
            size: setup.buffer,
            frame: first_len(machine),
            memory,
        },
    }
}

/// How many octets the first frame of the FIFO has; 0 where none waits.
fn first_len(machine: &Machine) -> u64
    ensures { result ≡ length (first machine.now.present.fifo).octets }
{
    match machine.first_frame() {
        Some(frame) => (frame.front.len() + frame.back.len()) as u64,
        None => 0,
    }
}

/// Why a transmit step was refused so.
fn refused_transmit(machine: &Machine, refusal: Refusal) -> Refused
    ensures { result ≡ refused_transmit refusal machine.now.present.profile (tx_setup machine.now.present.registers)
        machine.now.present.base machine.now.present.memory }
{
    let setup = machine.ring_tx();
    let ring = setup.ring();
    match octets_at(machine, &ring, setup.head) {
        None => Refused::TxDescriptor {
            index: setup.head,
            at: ring.descriptor_at(setup.head),
            memory: bounds_of(machine),
        },
        Some(octets) => refused_descriptor(machine, refusal, &setup, octets),
    }
}

/// Why the transmit descriptor of these octets was refused so.
fn refused_descriptor(
    machine: &Machine,
    refusal: Refusal,
    setup: &TxSetup,
    octets: [u8; DESCRIPTOR_OCTETS],
) -> Refused
    ensures { result ≡ refused_descriptor refusal machine.now.present.profile setup.now (bounds_of machine.now.present)
        (as_read machine.now.present.profile octets) }
{
    let profile = machine.profile();
    let descriptor = TxDescriptor::of_octets(octets).as_read(profile);
    let index = setup.head;
    let at = setup.ring().descriptor_at(index);
    let length = descriptor.length();
    match refusal {
        Refusal::Extended => Refused::Extended { index, at },
        Refusal::TooLong => too_long(profile, index, at, length),
        _ => Refused::TxBuffer {
            index,
            at,
            buffer: descriptor.address(),
            octets: length,
            memory: bounds_of(machine),
        },
    }
}

/// A descriptor has too many octets.
fn too_long(profile: Profile, index: u32, at: u128, octets: u16) -> Refused
    ensures { result ≡ too_long profile index at octets }
{
    match profile {
        Profile::Table => Refused::TooLong { index, at, octets },
        Profile::Adapter => Refused::Overlong { index, at, octets },
    }
}
