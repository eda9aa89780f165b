//! A descriptor of a ring, read.
ghost use Rattle.std.specs.Prelude.{◌≡◌, Result, IfOk, IfErr};
ghost use Rattle.em_inspect.specs.DescriptorText.{descriptor_text};
ghost use Rattle.em_c.specs.Refused.{Shows};
ghost use Rattle.em_c.specs.Entry as the;
ghost use Rattle.em_c.specs.Line.{IsTold};

use crate::handle::EmMachine;
use crate::line::{LINE, front_of, line_of};
use crate::refused::{Refused, tell};
use crate::rings::sided;
use crate::told::{address_told, flag};
use arrayvec::ArrayVec;
use em_inspect::{Bits, Descriptor, Fields, Owner, Trouble, write_descriptor};
use em_journal::Machine;

/// A descriptor of a ring, with what it says, whose it is, and what is wrong with it; the same in words.
#[repr(C)]
#[derive(Clone, Copy)]
pub struct EmEntry {
    /// Where it lies.
    pub address: u64,
    /// Where its buffer lies.
    pub buffer: u64,
    /// Its index in the ring.
    pub index: u32,
    /// How many octets the adapter put into the buffer, or is to send out of it.
    pub length: u32,
    /// Its status octet.
    pub status: u32,
    /// The errors octet of a receive descriptor; else 0.
    pub errors: u32,
    /// The command octet of a transmit descriptor; else 0.
    pub command: u32,
    /// 1 where it is the adapter's, 0 where it is the driver's.
    pub adapters: u32,
    /// 1 where the head stands here, else 0.
    pub head: u32,
    /// 1 where the tail stands here, else 0.
    pub tail: u32,
    /// The number of what is wrong with it; 0 where nothing is.
    pub trouble: u32,
    /// The index of the descriptor over whose buffer its own lies, else 0.
    pub other: u32,
    /// The descriptor in words, and zeros behind it.
    pub text: [u8; LINE],
}

/// A descriptor that says nothing.
const BLANK: EmEntry = EmEntry {
    address: 0,
    buffer: 0,
    index: 0,
    length: 0,
    status: 0,
    errors: 0,
    command: 0,
    adapters: 0,
    head: 0,
    tail: 0,
    trouble: 0,
    other: 0,
    text: [0; LINE],
};

/// The descriptor at an index of a ring, with whose it is and what is wrong with it.
#[unsafe(no_mangle)]
pub extern "C" fn em_ring_entry(
    machine: &mut EmMachine,
    side: u32,
    index: u32,
    entry: &mut EmEntry,
) -> u32
    ensures entry { (outcome : Result EmEntry Refused) × the.HeldEntry machine.old.sealed.held side index outcome
        × Shows outcome entry.old result entry.new }
    ensures same { machine.new.sealed.held ≡ machine.old.sealed.held }
{
    tell(entry_held(machine, side, index), entry)
}

/// A descriptor of the machine that is held.
fn entry_held(machine: &mut EmMachine, side: u32, index: u32) -> Result<EmEntry, Refused>
    ensures entry { the.HeldEntry machine.old.sealed.held side index result }
    ensures same { machine.new.sealed.held ≡ machine.old.sealed.held }
{
    let held = machine.held()?;
    entry_in(held.looked_at(), side, index)
}

/// A descriptor of a machine.
fn entry_in(machine: &Machine, side: u32, index: u32) -> Result<EmEntry, Refused>
    ensures { the.EntryIn side index machine.now result }
{
    let ring = sided(machine, side)?;
    if index >= ring.setup.count {
        return Err(Refused::NoDescriptor);
    }
    entry_told(&ring.descriptor(machine, index))
}

/// A descriptor, as C sees it, with its line, which has room.
fn entry_told(descriptor: &Descriptor) -> Result<EmEntry, Refused>
    ensures { IsTold result (the.entry_told descriptor.now) }
{
    let text = text_of(descriptor)?;
    let line = line_of(front_of(text.as_slice()))?;
    Ok(EmEntry {
        address: address_told(descriptor.address),
        index: descriptor.index,
        adapters: adapters_of(descriptor.owner),
        head: flag(descriptor.is_head),
        tail: flag(descriptor.is_tail),
        trouble: number_of_trouble(descriptor.trouble),
        other: other_of(descriptor.trouble),
        text: line,
        ..fields_told(descriptor.fields)
    })
}

/// A descriptor in words, with a newline.
fn text_of(descriptor: &Descriptor) -> Result<ArrayVec<u8, LINE>, Refused>
    ensures ok { IfOk result (λ text. text.items ≡ descriptor_text descriptor.now) }
    ensures err { IfErr result (λ refused. refused ≡ Refused.Room) }
{
    let mut text = ArrayVec::new();
    match write_descriptor(&mut text, descriptor) {
        Ok(()) => Ok(text),
        Err(_) => Err(Refused::Room),
    }
}

/// What a descriptor says, where it lies in guest memory.
fn fields_told(fields: Option<Fields>) -> EmEntry
    ensures { result ≡ the.fields_told fields }
{
    let Some(fields) = fields else {
        return BLANK;
    };
    let entry = EmEntry {
        buffer: fields.buffer,
        length: u32::from(fields.length),
        ..BLANK
    };
    match fields.bits {
        Bits::Rx { status, errors } => EmEntry {
            status: u32::from(status),
            errors: u32::from(errors),
            ..entry
        },
        Bits::Tx { command, status } => EmEntry {
            status: u32::from(status),
            command: u32::from(command),
            ..entry
        },
    }
}

/// 1 where it is the adapter's.
fn adapters_of(owner: Owner) -> u32
    ensures { result ≡ the.adapters_of owner }
{
    match owner {
        Owner::Adapter => 1,
        Owner::Driver => 0,
    }
}

/// The number of what is wrong with a descriptor.
fn number_of_trouble(trouble: Option<Trouble>) -> u32
    ensures { result ≡ the.number_of_trouble trouble }
{
    match trouble {
        None => 0,
        Some(Trouble::Outside) => 1,
        Some(Trouble::Extended) => 2,
        Some(Trouble::NoLength) => 3,
        Some(Trouble::TooLong) => 4,
        Some(Trouble::BufferOutside) => 5,
        Some(Trouble::OverRing) => 6,
        Some(Trouble::OverBuffer(_)) => 7,
    }
}

/// The descriptor over whose buffer its own lies.
fn other_of(trouble: Option<Trouble>) -> u32
    ensures { result ≡ the.other_of trouble }
{
    match trouble {
        Some(Trouble::OverBuffer(other)) => other,
        _ => 0,
    }
}
