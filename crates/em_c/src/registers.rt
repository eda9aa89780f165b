//! Accesses of registers.
ghost use Rattle.std.specs.Prelude.{◌≡◌};
ghost use Rattle.em_step.specs.Event.{writes};
ghost use Rattle.em_c.specs.Refused.{Shows};
ghost use Rattle.em_c.specs.Calls.{Calls, Reads};
ghost use Rattle.em_c.specs.Looks.{asked, value_at};

use crate::handle::EmMachine;
use crate::refused::{Refused, number, tell};
use em_step::{Answer, Event};
use std::alloc::Global;

/// Software reads a register.
#[unsafe(no_mangle)]
pub extern "C" fn em_read(
    alloc: Global,
    machine: &mut EmMachine,
    offset: u32,
    value: &mut u32,
) -> u32
    ensures { Reads machine.old.sealed.held offset value.old result value.new machine.new.sealed.held }
{
    match machine.perform(alloc, Event::Read(offset)) {
        Ok(Answer::Value(read)) => tell(Ok(read), value),
        Ok(_) => tell(Ok(0), value),
        Err(refused) => refused.number(),
    }
}

/// Software writes a register.
#[unsafe(no_mangle)]
pub extern "C" fn em_write(alloc: Global, machine: &mut EmMachine, offset: u32, value: u32) -> u32
    ensures { Calls machine.old.sealed.held (writes offset value) result machine.new.sealed.held }
{
    number(machine.perform(alloc, Event::Write(offset, value)))
}

/// What a read of the register would give; nothing changes.
#[unsafe(no_mangle)]
pub extern "C" fn em_look(machine: &mut EmMachine, offset: u32, value: &mut u32) -> u32
    ensures value { Shows (asked machine.old.sealed.held (value_at offset)) value.old result value.new }
    ensures same { machine.new.sealed.held ≡ machine.old.sealed.held }
{
    tell(value_at(machine, offset), value)
}

/// What a read of the register at an offset would give.
fn value_at(machine: &mut EmMachine, offset: u32) -> Result<u32, Refused>
    ensures value { result ≡ asked machine.old.sealed.held (value_at offset) }
    ensures same { machine.new.sealed.held ≡ machine.old.sealed.held }
{
    let held = machine.held()?;
    match held.looked_at().look(offset) {
        Some(value) => Ok(value),
        None => Err(Refused::NoRegister),
    }
}
