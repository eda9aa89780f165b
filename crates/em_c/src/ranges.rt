//! Which octets of guest memory a step reads and writes, and which an event wrote.
ghost use Rattle.std.specs.Prelude.{◌≡◌, List, Result};
ghost use Rattle.em_mem.specs.declared.needs.Range.{Range};
ghost use Rattle.em_c.specs.Refused.{Shows};
ghost use Rattle.em_c.specs.Looks.{asked};
ghost use Rattle.em_c.specs.Ranges.{needs_in, range_told, ranges_told, reads_of, writes_of, told_of};
ghost use Rattle.em_c.specs.Ranges.{HeldWroteAt, WroteAt};

use crate::handle::EmMachine;
use crate::refused::{DONE, Refused};
use em_journal::Machine;
use em_mem::{Needs, Range};

/// A range of guest memory. One of 0 octets stands at 0.
#[repr(C)]
#[derive(Clone, Copy)]
pub struct EmRange {
    /// Where its first octet lies.
    pub address: u64,
    /// How many octets it has.
    pub length: u64,
}

/// What the next step of a ring's engine reads of guest memory and what it writes there, by the octets as they are now.
#[unsafe(no_mangle)]
pub extern "C" fn em_ring_needs(
    machine: &mut EmMachine,
    side: u32,
    reads: &mut [EmRange; 2],
    writes: &mut [EmRange; 2],
) -> u32
    ensures reads { Shows (reads_of (asked machine.old.sealed.held (needs_in side))) reads.old result reads.new }
    ensures writes { Shows (writes_of (asked machine.old.sealed.held (needs_in side))) writes.old result writes.new }
    ensures same { machine.new.sealed.held ≡ machine.old.sealed.held }
{
    match needs_in(machine, side) {
        Ok(needs) => {
            *reads = ranges_told(needs.reads);
            *writes = ranges_told(needs.writes);
            DONE
        }
        Err(refused) => refused.number(),
    }
}

/// Which octets of guest memory an event of the journal wrote, the newest at 0.
#[unsafe(no_mangle)]
pub extern "C" fn em_written(machine: &mut EmMachine, k: usize, written: &mut [EmRange; 2]) -> u32
    ensures written { (outcome : Result (List Range) Refused) × HeldWroteAt machine.old.sealed.held k outcome
        × Shows (told_of outcome) written.old result written.new }
    ensures same { machine.new.sealed.held ≡ machine.old.sealed.held }
{
    match written_at(machine, k) {
        Ok(ranges) => {
            *written = ranges_told(ranges);
            DONE
        }
        Err(refused) => refused.number(),
    }
}

/// What the next step of a ring's engine needs of the machine that is held.
fn needs_in(machine: &mut EmMachine, side: u32) -> Result<Needs, Refused>
    ensures needs { result ≡ asked machine.old.sealed.held (needs_in side) }
    ensures same { machine.new.sealed.held ≡ machine.old.sealed.held }
{
    let held = machine.held()?;
    needs_of(held.looked_at(), side)
}

/// What the next step of a ring's engine needs.
fn needs_of(machine: &Machine, side: u32) -> Result<Needs, Refused>
    ensures { result ≡ needs_in side machine.now }
{
    match side {
        1 => Ok(machine.needs_rx()),
        2 => Ok(machine.needs_tx()),
        _ => Err(Refused::NoRing),
    }
}

/// What an event wrote of the machine that is held.
fn written_at(machine: &mut EmMachine, k: usize) -> Result<[Range; 2], Refused>
    ensures written { HeldWroteAt machine.old.sealed.held k result }
    ensures same { machine.new.sealed.held ≡ machine.old.sealed.held }
{
    let held = machine.held()?;
    written_of(held.looked_at(), k)
}

/// What an event wrote.
fn written_of(machine: &Machine, k: usize) -> Result<[Range; 2], Refused>
    ensures { WroteAt machine.now k result }
{
    match machine.record(k) {
        Some(past) => Ok(past.written()),
        None => Err(Refused::NoEvent),
    }
}

/// Ranges, as C sees them.
fn ranges_told(ranges: [Range; 2]) -> [EmRange; 2]
    ensures { result ≡ ranges_told ranges }
{
    [range_told(ranges[0]), range_told(ranges[1])]
}

/// A range, as C sees it.
fn range_told(range: Range) -> EmRange
    ensures { result ≡ range_told range }
{
    EmRange {
        address: range.at,
        length: range.len,
    }
}
