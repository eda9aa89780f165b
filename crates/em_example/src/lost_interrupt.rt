//! A driver's mistake, found by stepping back: the library by an example.

use anyhow::Result;
use bitflags::Flags;
use em_journal::{Machine, Settings};
use em_regs::{Causes, Reg};
use em_step::Event;
use em_watch::{Watch, last_change};

/// Makes the machine, and loses an interrupt on it.
pub fn show(rt: &(impl Print + AllocGlobal)) -> Result<()> {
    // 64 KiB of guest memory, a journal of 1 MiB, the link down
    let mut machine = Settings::default().machine(rt.alloc())?;
    lose_an_interrupt(rt, &mut machine)
}

/// A routine acknowledges an interrupt too early, and that write is taken back.
fn lose_an_interrupt(rt: &impl Print, machine: &mut Machine) -> Result<()> {
    // software lets link changes through to the interrupt line, and the link comes up
    machine.perform(Event::Write(Reg::Ims.offset(), Causes::LSC.bits()))?;
    machine.perform(Event::Link(true))?;
    println!(rt; "the link is up:          {}", line(machine))?;

    // the routine acknowledges every cause before it asks which one it was
    machine.perform(Event::Write(Reg::Icr.offset(), u32::MAX))?;
    println!(rt; "after the routine:       {}", line(machine))?;

    // who changed the line last? That write, one step back: it lost the cause, and is taken back
    if let Some(change) = last_change(machine, Watch::Line) {
        println!(rt; "the line changed:        {} step back", change.back)?;
        machine.back_by(change.back);
    }
    println!(rt; "before its first access: {}", line(machine))?;
    Ok(())
}

/// The interrupt line in a word.
fn line(machine: &Machine) -> &'static str {
    if machine.line() {
        "interrupt"
    } else {
        "no interrupt"
    }
}
