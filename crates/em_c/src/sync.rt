//! Guest memory and the caller's own memory are made the same.
ghost use Rattle.std.specs.Prelude.{◌≡◌, ◌+◌, ◌≤◌, ◌<◌, length, IfOk, IfErr, OnOk, OnErr};
ghost use Rattle.em_mem.specs.Memory.{LiesIn, part, put};
ghost use Rattle.em_step.specs.Event.{pokes};
ghost use Rattle.em_step.specs.Step.{Refuses};
ghost use Rattle.em_step.specs.declared.refusal.Refusal.TheVariants as event;
ghost use Rattle.em_c.specs.Refused.{number, told, Shows};
ghost use Rattle.em_c.specs.Looks.{asked, whole_memory};
ghost use Rattle.em_c.specs.Tagged.{Holds, present_of};
ghost use Rattle.em_c.specs.Sync.{memory_of, PerformsOne, Rewrites, Syncs, SyncsIn};

use crate::difference::{copy_changed, same_at_head, up_to_last};
use crate::handle::EmMachine;
use crate::refused::{Refused, number};
use crate::tagged::Tagged;
use em_journal::Machine;
use em_journal::laws::addresses_are_small;
use em_step::Event;
use std::alloc::Global;

/// How many octets are compared at once: those of a page of guest memory.
pub const PAGE: usize = 4096;

/// How many octets a memory write has at most.
pub const MOST: usize = 16_384;

/// Makes the caller's memory what guest memory is, whatever led there: events, or steps back. Octets that are the same
/// already are not written.
#[unsafe(no_mangle)]
pub extern "C" fn em_sync_out(machine: &mut EmMachine, ram: &mut [u8]) -> u32
    ensures octets { Shows (asked machine.old.sealed.held (whole_memory (length ram.old))) ram.old result ram.new }
    ensures same { machine.new.sealed.held ≡ machine.old.sealed.held }
{
    number(sync_out(machine, ram))
}

/// Makes the caller's memory what guest memory is.
fn sync_out(machine: &mut EmMachine, ram: &mut [u8]) -> Result<(), Refused>
    ensures outcome { number result ≡ number (asked machine.old.sealed.held (whole_memory (length ram.old))) }
    ensures octets { ram.new ≡ told ram.old (asked machine.old.sealed.held (whole_memory (length ram.old))) }
    ensures same { machine.new.sealed.held ≡ machine.old.sealed.held }
{
    let held = machine.held()?;
    copy_whole(held.looked_at(), ram)
}

/// Copies out what differs.
fn copy_whole(machine: &Machine, ram: &mut [u8]) -> Result<(), Refused>
    ensures outcome { number result ≡ number (whole_memory (length ram.old) machine.now) }
    ensures octets { ram.new ≡ told ram.old (whole_memory (length ram.old) machine.now) }
{
    if machine.memory_size() != ram.len() as u64 {
        return Err(Refused::Length);
    }
    copy_pages(machine, machine.memory_base(), ram);
    Ok(())
}

/// Copies out what differs from an address on, page by page.
pub fn copy_pages(machine: &Machine, from: u64, ram: &mut [u8])
    requires { LiesIn machine.now.present.base machine.now.present.memory from (length ram.old) }
    ensures { ram.new ≡ part machine.now.present.memory from (length ram.old) }
{
    addresses_are_small(machine);
    let mut at = 0usize;
    while at < ram.len() {
        let end = at + PAGE.min(ram.len() - at);
        copy_page(machine, from + at as u64, &mut ram[at..end]);
        at = end;
    }
}

/// Copies out what differs in a page.
fn copy_page(machine: &Machine, at: u64, ram: &mut [u8])
    requires held { LiesIn machine.now.present.base machine.now.present.memory at (length ram.old) }
    requires most { length ram.old ≤ PAGE }
    ensures { ram.new ≡ part machine.now.present.memory at (length ram.old) }
{
    let mut page = [0u8; PAGE];
    let octets = &mut page[..ram.len()];
    read(machine, at, octets);
    // (the whole page at first, which is quick: most are the same)
    if *octets != *ram {
        copy_changed(octets, ram);
    }
}

/// Copies octets of guest memory out.
fn read(machine: &Machine, at: u64, out: &mut [u8])
    requires { LiesIn machine.now.present.base machine.now.present.memory at (length out.old) }
    ensures { out.new ≡ part machine.now.present.memory at (length out.old) }
{
    match machine.peek(at, out) {
        Ok(()) => {}
        Err(_) => unreachable!(),
    }
}

/// Makes guest memory what the caller's memory is, by a memory write in each page that differs, from the first octet
/// that differs to the last. How many writes were made is told, also where the next one was refused.
#[unsafe(no_mangle)]
pub extern "C" fn em_sync_in(
    alloc: Global,
    machine: &mut EmMachine,
    ram: &[u8],
    writes: &mut usize,
) -> u32
    ensures { SyncsIn machine.old.sealed.held ram.now writes.old result writes.new machine.new.sealed.held }
{
    let mut held = match machine.take(alloc) {
        Ok(held) => held,
        Err(refused) => return refused.number(),
    };
    let outcome = sync_in(&mut held, ram, writes);
    machine.put(held);
    number(outcome)
}

/// Makes guest memory what the caller's memory is.
fn sync_in(machine: &mut Tagged, ram: &[u8], writes: &mut usize) -> Result<(), Refused>
    ensures { Syncs machine.old ram.now writes.old result writes.new machine.new }
{
    if machine.traced.machine().memory_size() != ram.len() as u64 {
        return Err(Refused::Length);
    }
    sync_pages(machine, ram, writes)
}

/// Makes guest memory what the caller's memory is, page by page.
fn sync_pages(machine: &mut Tagged, ram: &[u8], writes: &mut usize) -> Result<(), Refused>
    requires { (present_of machine.old).base + length ram.now ≡ length (memory_of machine.old) }
    ensures { Syncs machine.old ram.now writes.old result writes.new machine.new }
{
    let base = machine.traced.machine().memory_base();
    let mut count = 0usize;
    let mut at = 0usize;
    while at < ram.len() {
        addresses_are_small(machine.traced.machine());
        let end = at + PAGE.min(ram.len() - at);
        match sync_page(machine, base + at as u64, &ram[at..end]) {
            Ok(more) => {
                count += more;
                at = end;
            }
            Err(_) => {
                *writes = count;
                return Err(Refused::Memory);
            }
        }
    }
    *writes = count;
    Ok(())
}

/// Makes a page of guest memory what it is in the caller's memory; gives how many writes that took: one, or none.
pub fn sync_page(machine: &mut Tagged, at: u64, new: &[u8]) -> Result<usize, Refused>
    requires held { Holds machine.old at (length new.now) }
    requires most { length new.now ≤ PAGE }
    ensures { Rewrites machine.old at new.now result machine.new }
{
    let mut page = [0u8; PAGE];
    rewrite(machine, at, new, &mut page[..new.len()])
}

/// Makes octets of guest memory what they are in the caller's memory; gives how many writes that took: one, or none. What
/// was there goes into `old`.
pub fn rewrite(machine: &mut Tagged, at: u64, new: &[u8], old: &mut [u8]) -> Result<usize, Refused>
    requires held { Holds machine.old at (length new.now) }
    requires most { length new.now ≤ MOST }
    requires room { length old.old ≡ length new.now }
    ensures { Rewrites machine.old at new.now result machine.new }
{
    read(machine.traced.machine(), at, old);
    if *old == *new {
        return Ok(0);
    }
    let first = same_at_head(old, new);
    let last = up_to_last(old, new);
    let run = &new[first..last];
    addresses_are_small(machine.traced.machine());
    match write(machine, at + first as u64, run) {
        Ok(()) => Ok(1),
        Err(refused) => Err(refused),
    }
}

/// Writes octets to guest memory.
fn write(machine: &mut Tagged, at: u64, octets: &[u8]) -> Result<(), Refused>
    requires held { Holds machine.old at (length octets.now) }
    requires some { 0 < length octets.now }
    requires most { length octets.now ≤ MOST }
    ensures performs { OnOk result (PerformsOne (pokes at octets.now) machine.old machine.new) }
    ensures base { OnOk result ((present_of machine.new).base ≡ (present_of machine.old).base) }
    ensures memory { OnOk result (memory_of machine.new ≡ put (memory_of machine.old) at octets.now) }
    ensures wanting { OnErr result (Refuses (present_of machine.old) (pokes at octets.now) event.Memory) }
    ensures only { IfErr result (λ refused. refused ≡ Refused.Memory) }
    ensures same { OnErr result (machine.new ≡ machine.old) }
{
    match machine.perform(Event::Poke(at, octets)) {
        Ok(_) => Ok(()),
        Err(_) => Err(Refused::Memory),
    }
}
