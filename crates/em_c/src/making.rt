//! Machines are made, and freed.
ghost use Rattle.std.specs.Prelude.{◌≡◌, ◌↔◌, [], None, IfOk, IfErr, OnOk};
ghost use Rattle.em_eeprom.specs.Eeprom.{words_of_mac};
ghost use Rattle.em_step.specs.Cells.{fresh_as};
ghost use Rattle.em_journal.specs.Budget.{IsBudget};
ghost use Rattle.em_c.specs.Profile as numbered;
ghost use Rattle.em_c.specs.Making.{base_of, beginning, new_machine, octets_of, profile_of};
ghost use Rattle.em_c.specs.Making.{CanLie, IsRefusedAs, Makes, MakesAs};

use crate::handle::EmMachine;
use crate::profile::profile_of;
use crate::refused::{DONE, Refused};
use crate::tagged::Tagged;
use em_eeprom::Eeprom;
use em_journal::{JournalRefusal, LEAST_BUDGET, MOST_BUDGET, Machine};
use em_mem::MemRefusal;
use em_regs::Profile;
use em_step::Adapter;
use em_trail::Traced;
use std::alloc::Global;

/// How many words the EEPROM has.
const EEPROM_WORDS: usize = 64;

/// Where guest memory is to lie, and of which profile the machine is: the first, where none is named.
#[derive(Clone, Copy)]
pub enum Place {
    /// So many octets from address 0 on: 16 MiB at most.
    First(u64),
    /// From an address on, so many octets.
    From(u64, u64),
    /// Of this profile, from an address on, so many octets.
    As(Profile, u64, u64),
}

/// Makes a machine with this Ethernet address in its EEPROM.
#[unsafe(no_mangle)]
pub extern "C" fn em_make(
    alloc: Global,
    machine: &mut EmMachine,
    memory: u64,
    budget: u64,
    mac: &[u8; 6],
) -> u32
    ensures { Makes machine.old.sealed.held (Place.First memory) budget (words_of_mac mac.now) result
        machine.new.sealed.held }
{
    let first = Place::First(memory);
    make(alloc, machine, first, budget, Eeprom::of_mac(*mac))
}

/// Makes a machine with these words in its EEPROM.
#[unsafe(no_mangle)]
pub extern "C" fn em_make_with_eeprom(
    alloc: Global,
    machine: &mut EmMachine,
    memory: u64,
    budget: u64,
    words: &[u16; EEPROM_WORDS],
) -> u32
    ensures { Makes machine.old.sealed.held (Place.First memory) budget words.now result
        machine.new.sealed.held }
{
    let first = Place::First(memory);
    make(alloc, machine, first, budget, Eeprom::of_words(*words))
}

/// Makes a machine whose guest memory begins at `base`, with this Ethernet address in its EEPROM.
#[unsafe(no_mangle)]
pub extern "C" fn em_make_at(
    alloc: Global,
    machine: &mut EmMachine,
    base: u64,
    memory: u64,
    budget: u64,
    mac: &[u8; 6],
) -> u32
    ensures { Makes machine.old.sealed.held (Place.From base memory) budget (words_of_mac mac.now) result
        machine.new.sealed.held }
{
    let place = Place::From(base, memory);
    make(alloc, machine, place, budget, Eeprom::of_mac(*mac))
}

/// Makes a machine whose guest memory begins at `base`, with these words in its EEPROM.
#[unsafe(no_mangle)]
pub extern "C" fn em_make_at_with_eeprom(
    alloc: Global,
    machine: &mut EmMachine,
    base: u64,
    memory: u64,
    budget: u64,
    words: &[u16; EEPROM_WORDS],
) -> u32
    ensures { Makes machine.old.sealed.held (Place.From base memory) budget words.now result
        machine.new.sealed.held }
{
    let place = Place::From(base, memory);
    make(alloc, machine, place, budget, Eeprom::of_words(*words))
}

/// Makes a machine of the profile of this number, whose guest memory begins at `base`, with this Ethernet address in its
/// EEPROM.
#[unsafe(no_mangle)]
pub extern "C" fn em_make_as(
    alloc: Global,
    machine: &mut EmMachine,
    profile: u32,
    base: u64,
    memory: u64,
    budget: u64,
    mac: &[u8; 6],
) -> u32
    ensures { MakesAs machine.old.sealed.held (numbered.profile_of profile) base memory budget (words_of_mac mac.now) result
        machine.new.sealed.held }
{
    let eeprom = Eeprom::of_mac(*mac);
    make_as(
        alloc,
        machine,
        profile_of(profile),
        base,
        memory,
        budget,
        eeprom,
    )
}

/// Makes a machine of the profile of this number, whose guest memory begins at `base`, with these words in its EEPROM.
#[unsafe(no_mangle)]
pub extern "C" fn em_make_as_with_eeprom(
    alloc: Global,
    machine: &mut EmMachine,
    profile: u32,
    base: u64,
    memory: u64,
    budget: u64,
    words: &[u16; EEPROM_WORDS],
) -> u32
    ensures { MakesAs machine.old.sealed.held (numbered.profile_of profile) base memory budget words.now result
        machine.new.sealed.held }
{
    let eeprom = Eeprom::of_words(*words);
    make_as(
        alloc,
        machine,
        profile_of(profile),
        base,
        memory,
        budget,
        eeprom,
    )
}

/// Frees the machine that a handle holds, where it holds one.
#[unsafe(no_mangle)]
pub extern "C" fn em_free(alloc: Global, machine: &mut EmMachine)
    ensures { machine.new.sealed.held ≡ None }
{
    drop(machine.take(alloc));
}

/// Makes a machine of a profile, where there is one of its number, in a handle that holds none.
fn make_as(
    alloc: Global,
    machine: &mut EmMachine,
    profile: Option<Profile>,
    base: u64,
    memory: u64,
    budget: u64,
    eeprom: Eeprom,
) -> u32
    ensures { MakesAs machine.old.sealed.held profile base memory budget eeprom result machine.new.sealed.held }
{
    match profile {
        Some(profile) => {
            let place = Place::As(profile, base, memory);
            make(alloc, machine, place, budget, eeprom)
        }
        None if machine.made => Refused::HasMachine.number(),
        None => Refused::NoProfile.number(),
    }
}

/// Makes a machine in a handle that holds none.
fn make(alloc: Global, machine: &mut EmMachine, place: Place, budget: u64, eeprom: Eeprom) -> u32
    ensures { Makes machine.old.sealed.held place budget eeprom result machine.new.sealed.held }
{
    if machine.made {
        return Refused::HasMachine.number();
    }
    match made(alloc, place, budget, eeprom) {
        Ok(made) => {
            machine.put(made);
            DONE
        }
        Err(refused) => refused.number(),
    }
}

/// A new machine in a box.
fn made(alloc: Global, place: Place, budget: u64, eeprom: Eeprom) -> Result<Box<Tagged>, Refused>
    ensures ok { IfOk result (λ made. made.value ≡ new_machine place budget eeprom) }
    ensures lies { OnOk result (CanLie place) }
    ensures budget { OnOk result (IsBudget budget) }
    ensures err { IfErr result (IsRefusedAs place budget) }
{
    let adapter = match adapter_at(alloc, place, eeprom) {
        Ok(adapter) => adapter,
        Err(refusal) => return Err(without_adapter(refusal, place, budget)),
    };
    let machine = match Machine::new(alloc, adapter, budget) {
        Ok(machine) => machine,
        Err((_, JournalRefusal::Budget)) => return Err(Refused::Budget),
        Err((_, JournalRefusal::Memory)) => return Err(Refused::Memory),
    };
    boxed(alloc, machine, 0)
}

/// A machine that has performed nothing, in a box, and so many of its frames were handed over.
pub fn boxed(alloc: Global, machine: Machine, handed: usize) -> Result<Box<Tagged>, Refused>
    requires { machine.past ≡ [] }
    ensures ok { IfOk result (λ made. made.value ≡ beginning machine handed) }
    ensures err { IfErr result (λ refused. refused ≡ Refused.Memory) }
{
    let Ok(traced) = Traced::new(alloc, machine) else {
        return Err(Refused::Memory);
    };
    let tagged = Tagged {
        traced,
        tag: 0,
        handed,
    };
    match Box::new(alloc, tagged) {
        Ok(made) => Ok(made),
        Err(_) => Err(Refused::Memory),
    }
}

/// A new adapter.
fn adapter_at(alloc: Global, place: Place, eeprom: Eeprom) -> Result<Adapter, MemRefusal>
    ensures ok { IfOk result (λ adapter. adapter ≡ fresh_as (profile_of place) (base_of place) (octets_of place) eeprom) }
    ensures lies { OnOk result (CanLie place) }
    ensures memory { IfErr result (λ e. e ≡ MemRefusal.Memory → CanLie place) }
    ensures refused { IfErr result (λ e. (e ≡ MemRefusal.Size) ↔ (CanLie place → ⊥)) }
{
    match place {
        Place::First(size) => Adapter::new(alloc, size, eeprom),
        Place::From(base, size) => Adapter::at(alloc, base, size, eeprom),
        Place::As(profile, base, size) => Adapter::at_as(alloc, profile, base, size, eeprom),
    }
}

/// Why no machine is made where no adapter was: a budget that is not allowed is named before the want of memory.
fn without_adapter(refusal: MemRefusal, place: Place, budget: u64) -> Refused
    requires size { (refusal ≡ MemRefusal.Size) ↔ (CanLie place → ⊥) }
    requires memory { refusal ≡ MemRefusal.Memory → CanLie place }
    ensures { IsRefusedAs place budget result }
{
    match refusal {
        MemRefusal::Size => Refused::Size,
        MemRefusal::Memory if LEAST_BUDGET <= budget && budget <= MOST_BUDGET => Refused::Memory,
        MemRefusal::Memory => Refused::Budget,
    }
}
