//! Why an event did nothing.
ghost use Rattle.std.specs.Prelude.{◌≡◌, Result};
ghost use Rattle.std.specs.Option.{option_map};
ghost use Rattle.em_step.specs.Event.{plain};
ghost use Rattle.em_reasons.specs.Undone.{undone_of};
ghost use Rattle.em_reasons.specs.Why.{IsWhyOf};
ghost use Rattle.em_c.specs.Refused.{Shows};
ghost use Rattle.em_c.specs.Why as the;

use crate::handle::EmMachine;
use crate::note::EmNote;
use crate::reason::EmReason;
use crate::refused::{Refused, tell};
use em_journal::Machine;
use em_reasons::{Why, why_of};
use em_step::{Answer, Event, Reason, Refusal};

/// Why an event did nothing: a step that was idle, a frame that was dropped, an event that a call refused with the
/// number `code`. The machine is as the event left it. What the note does not have, the octets of a frame or of a
/// memory write, the caller gives.
#[unsafe(no_mangle)]
pub extern "C" fn em_why(
    machine: &mut EmMachine,
    event: &EmNote,
    code: u32,
    octets: &[u8],
    reason: &mut EmReason,
) -> u32
    ensures reason { (outcome : Result EmReason Refused)
        × the.HeldReason machine.old.sealed.held event.now code octets.now outcome
        × Shows outcome reason.old result reason.new }
    ensures same { machine.new.sealed.held ≡ machine.old.sealed.held }
{
    tell(reason_held(machine, event, code, octets), reason)
}

/// The reason, of the machine that is held.
fn reason_held(
    machine: &mut EmMachine,
    event: &EmNote,
    code: u32,
    octets: &[u8],
) -> Result<EmReason, Refused>
    ensures reason { the.HeldReason machine.old.sealed.held event.now code octets.now result }
    ensures same { machine.new.sealed.held ≡ machine.old.sealed.held }
{
    let held = machine.held()?;
    reason_in(held.looked_at(), event, code, octets)
}

/// The reason, with its numbers and its text.
fn reason_in(
    machine: &Machine,
    event: &EmNote,
    code: u32,
    octets: &[u8],
) -> Result<EmReason, Refused>
    ensures { the.GivesReason machine.now event.now code octets.now result }
{
    EmReason::of(why_in(machine, event, code, octets))
}

/// The reason, if there is one.
fn why_in(machine: &Machine, event: &EmNote, code: u32, octets: &[u8]) -> Option<Why>
    ensures { IsWhyOf machine.now.present (the.event_of event.now octets.now)
        (undone_of (the.came_of code event.now.kind)) result }
{
    let Some(outcome) = came_of(code, event.kind) else {
        return None;
    };
    match event_of(event, octets) {
        Some(event) => why_of(machine, event, outcome),
        None => None,
    }
}

/// Which event it was.
fn event_of<'a>(event: &EmNote, octets: &'a [u8]) -> Option<Event<'a>>
    ensures { option_map plain result ≡ the.event_of event.now octets.now }
{
    match event.kind {
        1 => match u32::try_from(event.at) {
            Ok(offset) => Some(Event::Read(offset)),
            Err(_) => None,
        },
        2 => match u32::try_from(event.at) {
            Ok(offset) => Some(Event::Write(offset, event.value)),
            Err(_) => None,
        },
        3 => Some(Event::Poke(event.at, octets)),
        4 => Some(Event::Link(true)),
        5 => Some(Event::Link(false)),
        6 | 7 => Some(Event::RxStep),
        8..=10 => Some(Event::TxStep),
        11..=17 => Some(Event::Arrive(octets)),
        _ => None,
    }
}

/// What came of it, by the number that its call gave, and its kind.
fn came_of(code: u32, kind: u32) -> Option<Result<Answer, Refusal>>
    ensures { result ≡ the.came_of code kind }
{
    match code {
        0 => idle_or_dropped(kind),
        1 => Some(Err(Refusal::NoRegister)),
        2 => Some(Err(Refusal::Range)),
        3 => Some(Err(Refusal::Length)),
        4 => Some(Err(Refusal::DmaRange)),
        5 => Some(Err(Refusal::Extended)),
        6 => Some(Err(Refusal::TooLong)),
        9 => Some(Err(Refusal::Memory)),
        _ => None,
    }
}

/// That it was idle, or that a frame was dropped, by its kind.
fn idle_or_dropped(kind: u32) -> Option<Result<Answer, Refusal>>
    ensures { result ≡ the.idle_or_dropped kind }
{
    match kind {
        6 | 8 => Some(Ok(Answer::Idle)),
        12 => Some(Ok(Answer::Dropped(Reason::Down))),
        13 => Some(Ok(Answer::Dropped(Reason::Disabled))),
        14 => Some(Ok(Answer::Dropped(Reason::Rejected))),
        15 => Some(Ok(Answer::Dropped(Reason::Undersize))),
        16 => Some(Ok(Answer::Dropped(Reason::Oversize))),
        17 => Some(Ok(Answer::Dropped(Reason::Missed))),
        _ => None,
    }
}
