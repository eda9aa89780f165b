//! What the events of the journal were, and under which tag the next ones are noted.
ghost use Rattle.std.specs.Prelude.{◌≡◌};
ghost use Rattle.em_c.specs.Refused.{number, Shows};
ghost use Rattle.em_c.specs.Notes.{event_at, holding, with_tag};

use crate::handle::EmMachine;
use crate::note::EmNote;
use crate::refused::{Refused, number, tell};
use std::alloc::Global;

/// Sets the tag of the events from now on.
#[unsafe(no_mangle)]
pub extern "C" fn em_tag(alloc: Global, machine: &mut EmMachine, tag: u64) -> u32
    ensures code { result ≡ number (holding machine.old.sealed.held) }
    ensures tagged { machine.new.sealed.held ≡ with_tag tag machine.old.sealed.held }
{
    number(set_tag(alloc, machine, tag))
}

/// What an event of the journal was, the newest at 0.
#[unsafe(no_mangle)]
pub extern "C" fn em_event(machine: &mut EmMachine, k: usize, event: &mut EmNote) -> u32
    ensures event { Shows (event_at k machine.old.sealed.held) event.old result event.new }
    ensures same { machine.new.sealed.held ≡ machine.old.sealed.held }
{
    tell(event_at(machine, k), event)
}

/// Sets the tag.
fn set_tag(alloc: Global, machine: &mut EmMachine, tag: u64) -> Result<(), Refused>
    ensures code { number result ≡ number (holding machine.old.sealed.held) }
    ensures tagged { machine.new.sealed.held ≡ with_tag tag machine.old.sealed.held }
{
    let mut held = machine.take(alloc)?;
    held.tag = tag;
    machine.put(held);
    Ok(())
}

/// What an event was.
fn event_at(machine: &mut EmMachine, k: usize) -> Result<EmNote, Refused>
    ensures event { result ≡ event_at k machine.old.sealed.held }
    ensures same { machine.new.sealed.held ≡ machine.old.sealed.held }
{
    let held = machine.held()?;
    match held.traced.note(k) {
        Some(note) => Ok(EmNote::of(note)),
        None => Err(Refused::NoEvent),
    }
}
