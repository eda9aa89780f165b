//! A machine as octets, and a machine that is made of octets.
ghost use Rattle.std.specs.Prelude.{◌≡◌, ℕ, List, None, Result, Ok, Err, IfOk, IfErr, OnOk};
ghost use Rattle.em_stored.specs.Tests.{fault_of};
ghost use Rattle.em_c.specs.Refused.{Shows, told};
ghost use Rattle.em_c.specs.Looks.{laid_into, length_of};
ghost use Rattle.em_c.specs.Stored.{IsLoadedOf, IsWhyNone, Loads, Stores, octets_of, of_fault};

use crate::handle::EmMachine;
use crate::making::boxed;
use crate::refused::{DONE, Refused, number};
use crate::room::lay;
use crate::tagged::Tagged;
use em_stored::{StoredRefusal, load, store};
use std::alloc::Global;

/// All of the machine but its journal, its notes and the tag, as octets; how many they are is told also where there is no
/// room for them.
#[unsafe(no_mangle)]
pub extern "C" fn em_store(
    alloc: Global,
    machine: &mut EmMachine,
    out: &mut [u8],
    octets: &mut usize,
) -> u32
    ensures octets { (outcome : Result (List ℕ) Refused)
        × Stores machine.old.sealed.held outcome
        × Shows (laid_into out.old outcome) out.old result out.new
        × (octets.new ≡ told octets.old (length_of outcome)) }
    ensures same { machine.new.sealed.held ≡ machine.old.sealed.held }
{
    match stored_held(alloc, machine) {
        Ok(stored) => number(lay(stored.as_slice(), out, octets)),
        Err(refused) => refused.number(),
    }
}

/// Makes a machine of what `em_store` told, in a handle that holds none.
#[unsafe(no_mangle)]
pub extern "C" fn em_load(alloc: Global, machine: &mut EmMachine, octets: &[u8]) -> u32
    ensures { Loads machine.old.sealed.held octets.now result machine.new.sealed.held }
{
    if machine.made {
        return Refused::HasMachine.number();
    }
    match loaded(alloc, octets) {
        Ok(made) => {
            machine.put(made);
            DONE
        }
        Err(refused) => refused.number(),
    }
}

/// The machine that is held, as octets.
fn stored_held(alloc: Global, machine: &mut EmMachine) -> Result<Vec<u8>, Refused>
    ensures ok { IfOk result (λ octets. Stores machine.old.sealed.held (Ok octets.items)) }
    ensures err { IfErr result (λ refused. Stores machine.old.sealed.held (Err refused)) }
    ensures same { machine.new.sealed.held ≡ machine.old.sealed.held }
{
    let held = machine.held()?;
    stored_of(alloc, held)
}

/// A machine, as octets.
fn stored_of(alloc: Global, machine: &Tagged) -> Result<Vec<u8>, Refused>
    ensures ok { IfOk result (λ octets. octets.items ≡ octets_of machine.now) }
    ensures err { IfErr result (λ refused. refused ≡ Refused.Memory) }
{
    match store(alloc, machine.looked_at(), machine.handed as u64) {
        Ok(octets) => Ok(octets),
        Err(_) => Err(Refused::Memory),
    }
}

/// The machine that octets are of, in a box.
fn loaded(alloc: Global, octets: &[u8]) -> Result<Box<Tagged>, Refused>
    ensures ok { IfOk result (λ made. IsLoadedOf octets.now made.value) }
    ensures well { OnOk result (fault_of octets.now ≡ None) }
    ensures err { IfErr result (IsWhyNone (fault_of octets.now)) }
{
    let (machine, handed) = match load(alloc, octets) {
        Ok(made) => made,
        Err(fault) => return Err(refused_by(fault)),
    };
    let sent = machine.wire_len();
    if handed > sent as u64 {
        return Err(Refused::StoredValue);
    }
    boxed(alloc, machine, handed as usize)
}

/// What octets are refused for, as a refusal.
fn refused_by(fault: StoredRefusal) -> Refused
    ensures { result ≡ of_fault fault }
{
    match fault {
        StoredRefusal::Magic => Refused::StoredMagic,
        StoredRefusal::Version => Refused::StoredVersion,
        StoredRefusal::Length => Refused::StoredLength,
        StoredRefusal::Sum => Refused::StoredSum,
        StoredRefusal::Value => Refused::StoredValue,
        StoredRefusal::Memory => Refused::Memory,
    }
}
