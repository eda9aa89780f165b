//! Octets of frames that were sent are let go.
ghost use Rattle.std.specs.Prelude.{◌≡◌};
ghost use Rattle.em_c.specs.Refused.{Shows};
ghost use Rattle.em_c.specs.LetGo.{frames_gone, held_without};
ghost use Rattle.em_c.specs.Looks.{asked};

use crate::handle::EmMachine;
use crate::refused::{Refused, tell};

/// Lets go of the octets of the frames that were sent and that no step back takes off the wire, and tells how many frames
/// these are. They are the first ones of the wire, and stay there: each has no octet from then on, and was handed over.
#[unsafe(no_mangle)]
pub extern "C" fn em_let_go(machine: &mut EmMachine, count: &mut usize) -> u32
    ensures count { Shows (asked machine.old.sealed.held frames_gone) count.old result count.new }
    ensures held { machine.new.sealed.held ≡ held_without machine.old.sealed.held }
{
    tell(let_go(machine), count)
}

/// Lets go of octets of the machine that is held.
fn let_go(machine: &mut EmMachine) -> Result<usize, Refused>
    ensures count { result ≡ asked machine.old.sealed.held frames_gone }
    ensures held { machine.new.sealed.held ≡ held_without machine.old.sealed.held }
{
    let held = machine.held()?;
    Ok(held.let_frames_go())
}
