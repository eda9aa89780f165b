//! An engine works until it has nothing to do.
ghost use Rattle.std.specs.Prelude.{◌≡◌};
ghost use Rattle.em_step.specs.Event.{plain, receives, transmits};
ghost use Rattle.em_c.specs.Run.{Runs};

use crate::handle::EmMachine;
use crate::refused::{DONE, Refused};
use em_step::Event;
use std::alloc::Global;

/// Steps of the receive engine: until one is idle or refused, and at most `n` that are neither. How many those were is
/// told, also where the next one was refused.
#[unsafe(no_mangle)]
pub extern "C" fn em_run_rx(
    alloc: Global,
    machine: &mut EmMachine,
    n: usize,
    done: &mut usize,
) -> u32
    ensures { Runs machine.old.sealed.held receives n done.old result done.new machine.new.sealed.held }
{
    run(alloc, machine, Event::RxStep, n, done)
}

/// Steps of the transmit engine: until one is idle or refused, and at most `n` that are neither. How many those were is
/// told, also where the next one was refused.
#[unsafe(no_mangle)]
pub extern "C" fn em_run_tx(
    alloc: Global,
    machine: &mut EmMachine,
    n: usize,
    done: &mut usize,
) -> u32
    ensures { Runs machine.old.sealed.held transmits n done.old result done.new machine.new.sealed.held }
{
    run(alloc, machine, Event::TxStep, n, done)
}

/// The event again and again.
fn run(alloc: Global, machine: &mut EmMachine, event: Event<'_>, n: usize, done: &mut usize) -> u32
    ensures { Runs machine.old.sealed.held (plain event.entry) n done.old result done.new machine.new.sealed.held }
{
    let mut held = match machine.take(alloc) {
        Ok(held) => held,
        Err(refused) => return refused.number(),
    };
    let (count, refusal) = held.repeat(event, n);
    machine.put(held);
    *done = count;
    match refusal {
        None => DONE,
        Some(refusal) => Refused::of_event(refusal).number(),
    }
}
