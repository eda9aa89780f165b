//! All registers that are not zero.
ghost use Rattle.std.specs.Prelude.{◌≡◌, ◌+◌, ◌≤◌, ◌++◌, Ok, length, drop};
ghost use Rattle.em_c.specs.Refused.{number, told, Shows};
ghost use Rattle.em_c.specs.Looks.{asked, value_at};
ghost use Rattle.em_c.specs.AllRegisters.{as_list, count_of, first_in, put_at, registers_below, registers_of, shown};

use crate::handle::EmMachine;
use crate::refused::{Refused, number};
use em_journal::Machine;

/// How many words the registers lie in: they lie below 06000h.
const WORDS: u32 = 0x1800;

/// How many octets a register has.
const WORD: u32 = 4;

/// A register, and what a read of it would give.
#[repr(C)]
#[derive(Clone, Copy)]
pub struct EmRegister {
    pub offset: u32,
    pub value: u32,
}

/// The registers that are not zero, by offset, in the room for them; how many they are is told also where there is no
/// room for all, and then none is put there.
#[unsafe(no_mangle)]
pub extern "C" fn em_registers(
    machine: &mut EmMachine,
    out: &mut [EmRegister],
    count: &mut usize,
) -> u32
    ensures registers { Shows (first_in out.old (asked machine.old.sealed.held registers_of)) out.old result out.new }
    ensures count { count.new ≡ told count.old (count_of (asked machine.old.sealed.held registers_of)) }
    ensures same { machine.new.sealed.held ≡ machine.old.sealed.held }
{
    number(list(machine, out, count))
}

/// Lists the registers of the machine that is held.
fn list(machine: &mut EmMachine, out: &mut [EmRegister], count: &mut usize) -> Result<(), Refused>
    ensures outcome { number result ≡ number (first_in out.old (asked machine.old.sealed.held registers_of)) }
    ensures registers { out.new ≡ told out.old (first_in out.old (asked machine.old.sealed.held registers_of)) }
    ensures count { count.new ≡ told count.old (count_of (asked machine.old.sealed.held registers_of)) }
    ensures same { machine.new.sealed.held ≡ machine.old.sealed.held }
{
    let held = machine.held()?;
    list_of(held.looked_at(), out, count)
}

/// Lists the registers of a machine.
fn list_of(machine: &Machine, out: &mut [EmRegister], count: &mut usize) -> Result<(), Refused>
    ensures outcome { number result ≡ number (first_in out.old (registers_of machine.now)) }
    ensures registers { out.new ≡ told out.old (first_in out.old (registers_of machine.now)) }
    ensures count { count.new ≡ told count.old (count_of (registers_of machine.now)) }
{
    let all = count_all(machine);
    *count = all;
    if all > out.len() {
        return Err(Refused::Room);
    }
    fill(machine, out);
    Ok(())
}

/// How many registers are not zero.
fn count_all(machine: &Machine) -> usize
    ensures { result ≡ length (registers_below WORDS machine.now) }
{
    let mut count = 0usize;
    for word in 0..WORDS {
        count += count_at(machine, WORD * word);
    }
    count
}

/// How many registers that are not zero lie at an offset: one, or none.
fn count_at(machine: &Machine, offset: u32) -> usize
    ensures count { result ≡ length (shown offset (value_at offset machine.now)) }
    ensures most { result ≤ 1 }
{
    match shown(machine, offset) {
        Some(_) => 1,
        None => 0,
    }
}

/// Puts the registers that are not zero where there is room for them.
fn fill(machine: &Machine, out: &mut [EmRegister])
    requires { length (registers_below WORDS machine.now) ≤ length out.old }
    ensures { out.new ≡ registers_below WORDS machine.now ++ drop (length (registers_below WORDS machine.now)) out.old }
{
    let mut at = 0usize;
    for word in 0..WORDS {
        at = put_shown(machine, WORD * word, out, at);
    }
}

/// Puts the register at an offset, where it is not zero, at a place; gives the next place.
fn put_shown(machine: &Machine, offset: u32, out: &mut [EmRegister], at: usize) -> usize
    requires { at + length (shown offset (value_at offset machine.now)) ≤ length out.old }
    ensures next { result ≡ at + length (shown offset (value_at offset machine.now)) }
    ensures put { out.new ≡ put_at at (shown offset (value_at offset machine.now)) out.old }
{
    match shown(machine, offset) {
        Some(register) => {
            out[at] = register;
            at + 1
        }
        None => at,
    }
}

/// The register at an offset, where there is one that is not zero.
fn shown(machine: &Machine, offset: u32) -> Option<EmRegister>
    ensures { as_list result ≡ shown offset (value_at offset machine.now) }
{
    match machine.look(offset) {
        Some(value) => {
            if value == 0 {
                None
            } else {
                Some(EmRegister { offset, value })
            }
        }
        None => None,
    }
}
