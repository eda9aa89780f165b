//! A range of guest memory and of the caller's own memory are made the same.
ghost use Rattle.std.specs.Prelude.{◌≡◌, ◌≤◌, length};
ghost use Rattle.em_c.specs.Refused.{number, told, Shows};
ghost use Rattle.em_c.specs.Looks.{asked, octets_at};
ghost use Rattle.em_c.specs.Sync.{Rewrites};
ghost use Rattle.em_c.specs.SyncRange.{SyncsRange, SyncsRangeIn};
ghost use Rattle.em_c.specs.Tagged.{Holds};

use crate::handle::EmMachine;
use crate::memory::leaves;
use crate::refused::{Refused, number, tell};
use crate::sync::{MOST, PAGE, copy_pages, rewrite, sync_page};
use crate::tagged::Tagged;
use em_journal::Machine;
use std::alloc::Global;

/// How many octets are compared at once where there are few, as of a descriptor.
const FEW: usize = 64;

/// Makes the caller's octets what guest memory is from an address on. Octets that are the same already are not written.
#[unsafe(no_mangle)]
pub extern "C" fn em_sync_out_range(machine: &mut EmMachine, addr: u64, out: &mut [u8]) -> u32
    ensures octets { Shows (asked machine.old.sealed.held (octets_at addr (length out.old))) out.old result out.new }
    ensures same { machine.new.sealed.held ≡ machine.old.sealed.held }
{
    number(sync_out(machine, addr, out))
}

/// Makes guest memory what the caller's octets are from an address on, by one memory write from the first octet that
/// differs to the last, or by none. How many writes were made is told.
#[unsafe(no_mangle)]
pub extern "C" fn em_sync_in_range(
    alloc: Global,
    machine: &mut EmMachine,
    addr: u64,
    octets: &[u8],
    writes: &mut usize,
) -> u32
    ensures { SyncsRangeIn machine.old.sealed.held addr octets.now writes.old result writes.new
        machine.new.sealed.held }
{
    let mut held = match machine.take(alloc) {
        Ok(held) => held,
        Err(refused) => return refused.number(),
    };
    let outcome = sync_in(&mut held, addr, octets);
    machine.put(held);
    tell(outcome, writes)
}

/// Makes the caller's octets what guest memory is from an address on.
fn sync_out(machine: &mut EmMachine, addr: u64, out: &mut [u8]) -> Result<(), Refused>
    ensures outcome { number result ≡ number (asked machine.old.sealed.held (octets_at addr (length out.old))) }
    ensures octets { out.new ≡ told out.old (asked machine.old.sealed.held (octets_at addr (length out.old))) }
    ensures same { machine.new.sealed.held ≡ machine.old.sealed.held }
{
    let held = machine.held()?;
    copy_range(held.looked_at(), addr, out)
}

/// Copies out what differs from an address on.
fn copy_range(machine: &Machine, addr: u64, out: &mut [u8]) -> Result<(), Refused>
    ensures outcome { number result ≡ number (octets_at addr (length out.old) machine.now) }
    ensures octets { out.new ≡ told out.old (octets_at addr (length out.old) machine.now) }
{
    if leaves(machine, addr, out.len()) {
        return Err(Refused::Range);
    }
    copy_pages(machine, addr, out);
    Ok(())
}

/// Makes guest memory what the caller's octets are from an address on; gives how many writes that took.
fn sync_in(machine: &mut Tagged, addr: u64, octets: &[u8]) -> Result<usize, Refused>
    ensures { SyncsRange machine.old addr octets.now result machine.new }
{
    if leaves(machine.traced.machine(), addr, octets.len()) {
        return Err(Refused::Range);
    }
    if octets.len() > MOST {
        return Err(Refused::Length);
    }
    sync_held(machine, addr, octets)
}

/// The same of octets that lie in guest memory.
fn sync_held(machine: &mut Tagged, at: u64, new: &[u8]) -> Result<usize, Refused>
    requires held { Holds machine.old at (length new.now) }
    requires most { length new.now ≤ MOST }
    ensures { Rewrites machine.old at new.now result machine.new }
{
    // (a larger room takes longer to make)
    if new.len() <= FEW {
        let mut few = [0u8; FEW];
        rewrite(machine, at, new, &mut few[..new.len()])
    } else if new.len() <= PAGE {
        sync_page(machine, at, new)
    } else {
        sync_most(machine, at, new)
    }
}

/// The same of as many octets as a memory write can have.
#[inline(never)]
fn sync_most(machine: &mut Tagged, at: u64, new: &[u8]) -> Result<usize, Refused>
    requires held { Holds machine.old at (length new.now) }
    requires most { length new.now ≤ MOST }
    ensures { Rewrites machine.old at new.now result machine.new }
{
    let mut most = [0u8; MOST];
    rewrite(machine, at, new, &mut most[..new.len()])
}
