//! Steps back.
ghost use Rattle.std.specs.Prelude.{◌≡◌};
ghost use Rattle.em_c.specs.Refused.{Shows};
ghost use Rattle.em_c.specs.Calls.{steps_back, held_back};
ghost use Rattle.em_c.specs.Looks.{asked, reach};

use crate::handle::EmMachine;
use crate::refused::{Refused, tell};
use std::alloc::Global;

/// Takes the newest `n` events back, or as many as there are, and tells how many.
#[unsafe(no_mangle)]
pub extern "C" fn em_back(alloc: Global, machine: &mut EmMachine, n: usize, done: &mut usize) -> u32
    ensures done { Shows (steps_back machine.old.sealed.held n) done.old result done.new }
    ensures held { machine.new.sealed.held ≡ held_back machine.old.sealed.held n }
{
    tell(back(alloc, machine, n), done)
}

/// How many events can be taken back.
#[unsafe(no_mangle)]
pub extern "C" fn em_can_go_back(machine: &mut EmMachine, count: &mut usize) -> u32
    ensures count { Shows (asked machine.old.sealed.held reach) count.old result count.new }
    ensures same { machine.new.sealed.held ≡ machine.old.sealed.held }
{
    tell(reach(machine), count)
}

/// Takes events back.
pub fn back(alloc: Global, machine: &mut EmMachine, n: usize) -> Result<usize, Refused>
    ensures done { result ≡ steps_back machine.old.sealed.held n }
    ensures held { machine.new.sealed.held ≡ held_back machine.old.sealed.held n }
{
    let mut held = machine.take(alloc)?;
    let done = held.back_by(n);
    machine.put(held);
    Ok(done)
}

/// How many events can be taken back.
fn reach(machine: &mut EmMachine) -> Result<usize, Refused>
    ensures count { result ≡ asked machine.old.sealed.held reach }
    ensures same { machine.new.sealed.held ≡ machine.old.sealed.held }
{
    let held = machine.held()?;
    Ok(held.looked_at().can_go_back())
}
