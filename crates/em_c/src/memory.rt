//! Guest memory.
ghost use Rattle.std.specs.Prelude.{◌≡◌, false, length};
ghost use Rattle.em_mem.specs.Memory.{LiesIn, leaves};
ghost use Rattle.em_step.specs.Event.{pokes};
ghost use Rattle.em_c.specs.Refused.{number, told, Shows};
ghost use Rattle.em_c.specs.Calls.{Calls};
ghost use Rattle.em_c.specs.Looks.{asked, octets_at, memory_base, memory_size};

use crate::handle::EmMachine;
use crate::refused::{Refused, number, tell};
use em_journal::Machine;
use em_step::Event;
use std::alloc::Global;

/// Software writes octets to guest memory.
#[unsafe(no_mangle)]
pub extern "C" fn em_poke(alloc: Global, machine: &mut EmMachine, addr: u64, octets: &[u8]) -> u32
    ensures { Calls machine.old.sealed.held (pokes addr octets.now) result machine.new.sealed.held }
{
    number(machine.perform(alloc, Event::Poke(addr, octets)))
}

/// Copies octets of guest memory out.
#[unsafe(no_mangle)]
pub extern "C" fn em_peek(machine: &mut EmMachine, addr: u64, out: &mut [u8]) -> u32
    ensures octets { Shows (asked machine.old.sealed.held (octets_at addr (length out.old))) out.old result out.new }
    ensures same { machine.new.sealed.held ≡ machine.old.sealed.held }
{
    number(copy_out(machine, addr, out))
}

/// The address of guest memory's first octet.
#[unsafe(no_mangle)]
pub extern "C" fn em_memory_base(machine: &mut EmMachine, base: &mut u64) -> u32
    ensures base { Shows (asked machine.old.sealed.held memory_base) base.old result base.new }
    ensures same { machine.new.sealed.held ≡ machine.old.sealed.held }
{
    tell(memory_base(machine), base)
}

/// How many octets guest memory has.
#[unsafe(no_mangle)]
pub extern "C" fn em_memory_size(machine: &mut EmMachine, size: &mut u64) -> u32
    ensures size { Shows (asked machine.old.sealed.held memory_size) size.old result size.new }
    ensures same { machine.new.sealed.held ≡ machine.old.sealed.held }
{
    tell(memory_size(machine), size)
}

/// Copies octets of guest memory out.
fn copy_out(machine: &mut EmMachine, addr: u64, out: &mut [u8]) -> Result<(), Refused>
    ensures outcome { number result ≡ number (asked machine.old.sealed.held (octets_at addr (length out.old))) }
    ensures octets { out.new ≡ told out.old (asked machine.old.sealed.held (octets_at addr (length out.old))) }
    ensures same { machine.new.sealed.held ≡ machine.old.sealed.held }
{
    let held = machine.held()?;
    match held.looked_at().peek(addr, out) {
        Ok(()) => Ok(()),
        Err(_) => Err(Refused::Range),
    }
}

/// Where guest memory begins.
fn memory_base(machine: &mut EmMachine) -> Result<u64, Refused>
    ensures base { result ≡ asked machine.old.sealed.held memory_base }
    ensures same { machine.new.sealed.held ≡ machine.old.sealed.held }
{
    let held = machine.held()?;
    Ok(held.looked_at().memory_base())
}

/// How many octets guest memory has.
fn memory_size(machine: &mut EmMachine) -> Result<u64, Refused>
    ensures size { result ≡ asked machine.old.sealed.held memory_size }
    ensures same { machine.new.sealed.held ≡ machine.old.sealed.held }
{
    let held = machine.held()?;
    Ok(held.looked_at().memory_size())
}

/// Whether octets leave guest memory.
pub fn leaves(machine: &Machine, addr: u64, len: usize) -> bool
    ensures value { result ≡ leaves machine.now.present.base machine.now.present.memory addr len }
    ensures lies { result ≡ false → LiesIn machine.now.present.base machine.now.present.memory addr len }
{
    let end = machine.memory_end();
    addr < machine.memory_base() || addr > end || len as u64 > end - addr
}
