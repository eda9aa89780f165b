//! Accesses of registers by their number of octets, as a virtual machine has them.
ghost use Rattle.std.specs.Prelude.{◌≡◌};
ghost use Rattle.em_c.specs.Sized.{IsWord, ReadsWord, RefusesWidth, WritesWord, word_of};

use crate::handle::EmMachine;
use crate::refused::{Refused, number, tell};
use em_step::{Answer, Event};
use std::alloc::Global;

/// How many octets an access of a register has.
const WORD: u32 = 4;

/// Software reads so many octets of the register window. An access of a word is `em_read`; any other is refused.
#[unsafe(no_mangle)]
pub extern "C" fn em_read_sized(
    alloc: Global,
    machine: &mut EmMachine,
    offset: u32,
    octets: u32,
    value: &mut u64,
) -> u32
    ensures word { IsWord octets → ReadsWord machine.old.sealed.held offset value.old result value.new
        machine.new.sealed.held }
    ensures other { (IsWord octets → ⊥) → RefusesWidth result machine.old.sealed.held machine.new.sealed.held }
    ensures untold { (IsWord octets → ⊥) → value.new ≡ value.old }
{
    if octets != WORD {
        return Refused::Width.number();
    }
    match machine.perform(alloc, Event::Read(offset)) {
        Ok(Answer::Value(read)) => tell(Ok(u64::from(read)), value),
        Ok(_) => tell(Ok(0), value),
        Err(refused) => refused.number(),
    }
}

/// Software writes so many octets of the register window. An access of a word is `em_write` of the lowest 32 bits of the
/// value; any other is refused.
#[unsafe(no_mangle)]
pub extern "C" fn em_write_sized(
    alloc: Global,
    machine: &mut EmMachine,
    offset: u32,
    octets: u32,
    value: u64,
) -> u32
    ensures word { IsWord octets → WritesWord machine.old.sealed.held offset value result machine.new.sealed.held }
    ensures other { (IsWord octets → ⊥) → RefusesWidth result machine.old.sealed.held machine.new.sealed.held }
{
    if octets != WORD {
        return Refused::Width.number();
    }
    number(machine.perform(alloc, Event::Write(offset, word_of(value))))
}

/// The lowest 32 bits of a value.
fn word_of(value: u64) -> u32
    ensures { result ≡ word_of value }
{
    (value % (1 << 32)) as u32
}
