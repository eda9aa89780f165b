//! All that an event changed.
ghost use Rattle.std.specs.Prelude.{◌≡◌, ◌++◌, List, Result, Ok, Err, IfOk, IfErr, OnOk, length};
ghost use Rattle.em_c.specs.Refused.{Shows, number, told};
ghost use Rattle.em_c.specs.Differences as the;

use crate::handle::EmMachine;
use crate::refused::{Refused, number};
use crate::watch::{MOST_OCTETS, octets_of, value_of};
use em_journal::Machine;
use em_watch::{Difference, Effect, MemoryChange, RegisterChange, what};
use std::alloc::{AllocError, Global};

/// What an event changed of one thing: what was seen before the event, and behind it.
#[repr(C)]
#[derive(Clone, Copy)]
pub struct EmDifference {
    /// Of octets, where they lie.
    pub address: u64,
    /// What was seen before the event, but for octets: of the line and the link 1 or 0.
    pub value: u64,
    /// The same behind it.
    pub now: u64,
    /// What it is, by the kinds of watches.
    pub kind: u32,
    /// Of a register, its offset.
    pub offset: u32,
    /// Of octets, how many.
    pub octets: usize,
    /// The octets that were seen before the event, and zeros behind them.
    pub before: [u8; MOST_OCTETS],
    /// The same behind it.
    pub after: [u8; MOST_OCTETS],
}

/// All that an event of the journal changed, the newest at 0: registers by offset, octets by address, the interrupt
/// line, the link, how many frames wait, and how many were sent. How many these are is told also where there is no
/// room for all, and then none is put there.
#[unsafe(no_mangle)]
pub extern "C" fn em_differences(
    alloc: Global,
    machine: &mut EmMachine,
    k: usize,
    out: &mut [EmDifference],
    count: &mut usize,
) -> u32
    ensures differences { (outcome : Result (List EmDifference) Refused)
        × the.HeldDifferences machine.old.sealed.held k outcome
        × Shows (the.first_in out.old outcome) out.old result out.new
        × (count.new ≡ told count.old (the.count_of outcome)) }
    ensures same { machine.new.sealed.held ≡ machine.old.sealed.held }
{
    match differences_held(alloc, machine, k) {
        Ok(list) => number(lay(list.as_slice(), out, count)),
        Err(refused) => refused.number(),
    }
}

/// Copies a list to the head of the room for it, and tells how long it is.
fn lay(list: &[EmDifference], room: &mut [EmDifference], count: &mut usize) -> Result<(), Refused>
    ensures outcome { number result ≡ number (the.first_in room.old (Ok list.now)) }
    ensures list { room.new ≡ told room.old (the.first_in room.old (Ok list.now)) }
    ensures count { count.new ≡ length list.now }
{
    *count = list.len();
    if list.len() > room.len() {
        return Err(Refused::Room);
    }
    room[..list.len()].copy_from_slice(list);
    Ok(())
}

/// What an event of the machine that is held changed.
fn differences_held(
    alloc: Global,
    machine: &mut EmMachine,
    k: usize,
) -> Result<Vec<EmDifference>, Refused>
    ensures ok { IfOk result (λ list. the.HeldDifferences machine.old.sealed.held k (Ok list.items)) }
    ensures err { IfErr result (λ refused. the.HeldDifferences machine.old.sealed.held k (Err refused)) }
    ensures same { machine.new.sealed.held ≡ machine.old.sealed.held }
{
    let held = machine.held()?;
    differences_of(alloc, held.looked_at(), k)
}

/// What an event of a machine changed.
fn differences_of(alloc: Global, machine: &Machine, k: usize) -> Result<Vec<EmDifference>, Refused>
    ensures ok { IfOk result (λ list. the.DifferencesAt machine.now k (Ok list.items)) }
    ensures err { IfErr result (λ refused. the.DifferencesAt machine.now k (Err refused)) }
{
    if k >= machine.can_go_back() {
        return Err(Refused::NoEvent);
    }
    let mut list = Vec::new(alloc);
    match push_all(&mut list, &what(machine, k + 1)) {
        Ok(()) => Ok(list),
        Err(_) => Err(Refused::Memory),
    }
}

/// Puts all that an event changed behind a list.
fn push_all(list: &mut Vec<EmDifference>, effect: &Effect<'_>) -> Result<(), AllocError>
    ensures ok { OnOk result (the.Adds (the.AreDifferences effect.now.view effect.now.back) list.old.items
        list.new.items) }
{
    push_registers(list, effect)?;
    push_octets(list, effect)?;
    push_other(list, 3, effect.line())?;
    push_other(list, 4, effect.link())?;
    push_other(list, 5, effect.frames())?;
    push_other(list, 6, effect.sent())?;
    Ok(())
}

/// Puts the registers that an event changed behind a list.
fn push_registers(list: &mut Vec<EmDifference>, effect: &Effect<'_>) -> Result<(), AllocError>
    ensures ok { OnOk result (the.Adds (the.AreOfRegisters effect.now.view effect.now.back) list.old.items
        list.new.items) }
{
    for change in effect.registers() {
        list.push(of_register(change))?;
    }
    Ok(())
}

/// Puts the octets that an event changed behind a list.
fn push_octets(list: &mut Vec<EmDifference>, effect: &Effect<'_>) -> Result<(), AllocError>
    ensures ok { OnOk result (the.Adds (the.AreOfOctets effect.now.view effect.now.back) list.old.items
        list.new.items) }
{
    for change in effect.octets() {
        list.push(of_octets(change))?;
    }
    Ok(())
}

/// Puts what an event did to something else behind a list, if it did anything.
fn push_other(
    list: &mut Vec<EmDifference>,
    kind: u32,
    did: Option<Difference>,
) -> Result<(), AllocError>
    ensures ok { OnOk result (list.new.items ≡ list.old.items ++ the.of_other kind did) }
{
    match did {
        Some(difference) => {
            list.push(of_kind(kind, difference))?;
            Ok(())
        }
        None => Ok(()),
    }
}

/// A register that was changed.
fn of_register(change: RegisterChange) -> EmDifference
    ensures { result ≡ the.of_register change }
{
    EmDifference {
        offset: change.reg.offset(),
        ..of_kind(1, change.difference)
    }
}

/// Octets that were changed.
fn of_octets(change: MemoryChange) -> EmDifference
    ensures { result ≡ the.of_octets change }
{
    let before = change.before;
    let after = change.after;
    EmDifference {
        address: change.range.addr(),
        value: 0,
        now: 0,
        kind: 2,
        offset: 0,
        octets: change.range.len(),
        before,
        after,
    }
}

/// What was changed of something, by the kinds of watches.
fn of_kind(kind: u32, difference: Difference) -> EmDifference
    ensures { result ≡ the.of_kind kind difference }
{
    EmDifference {
        address: 0,
        value: value_of(difference.before),
        now: value_of(difference.after),
        kind,
        offset: 0,
        octets: 0,
        before: octets_of(difference.before),
        after: octets_of(difference.after),
    }
}
