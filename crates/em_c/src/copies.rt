//! A machine like another one.
ghost use Rattle.std.specs.Prelude.{◌≡◌, None, Some, IfOk, IfErr, OnErr};
ghost use Rattle.em_c.specs.Copies.{Copies, IsWhy};

use crate::handle::EmMachine;
use crate::refused::{DONE, Refused};
use crate::tagged::Tagged;
use std::alloc::Global;

/// Makes a machine that is equal to the one that is held, in a handle that holds none.
#[unsafe(no_mangle)]
pub extern "C" fn em_copy(alloc: Global, machine: &mut EmMachine, copy: &mut EmMachine) -> u32
    ensures copies { Copies machine.old.sealed.held copy.old.sealed.held result copy.new.sealed.held }
    ensures same { machine.new.sealed.held ≡ machine.old.sealed.held }
{
    if copy.made {
        return Refused::HasMachine.number();
    }
    match copied(alloc, machine) {
        Ok(made) => {
            copy.put(made);
            DONE
        }
        Err(refused) => refused.number(),
    }
}

/// A machine that is equal to the one that is held, in a box.
fn copied(alloc: Global, machine: &mut EmMachine) -> Result<Box<Tagged>, Refused>
    ensures ok { IfOk result (λ copy. machine.old.sealed.held ≡ Some copy.value) }
    ensures err { IfErr result (IsWhy machine.old.sealed.held) }
    ensures same { machine.new.sealed.held ≡ machine.old.sealed.held }
{
    let held = machine.held()?;
    let Ok(copy) = held.copy() else {
        return Err(Refused::Memory);
    };
    match Box::new(alloc, copy) {
        Ok(made) => Ok(made),
        Err(_) => Err(Refused::Memory),
    }
}
