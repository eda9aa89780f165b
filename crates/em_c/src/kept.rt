//! Calls of a run that is kept: each performs what the call of its name performs, and tells the lines of it.
ghost use Rattle.std.specs.Prelude.{◌≡◌};
ghost use Rattle.em_step.specs.Event as events;
ghost use Rattle.em_step.specs.Event.{writes, pokes, arrives, links, receives, transmits};
ghost use Rattle.em_kept.specs.Source as sources;
ghost use Rattle.em_kept.specs.Head.{head_text};
ghost use Rattle.em_c.specs.Profile.{profile_of};
ghost use Rattle.em_kept.specs.Kept.{event_text, refused_text};
ghost use Rattle.em_c.specs.Refused.{Shows};
ghost use Rattle.em_c.specs.Calls.{steps_back, held_back};
ghost use Rattle.em_c.specs.Text.{Says};
ghost use Rattle.em_c.specs.Kept.{Keeps, KeepsCall, KeepsHeld, KeepsRead, back_of, head_of, source_of};

use crate::back::back;
use crate::handle::EmMachine;
use crate::profile::profile_of;
use crate::refused::{Refused, number, tell};
use crate::tagged::Tagged;
use crate::text::Text;
use em_eeprom::Eeprom;
use em_kept::Source;
use em_regs::Profile;
use em_step::{Answer, Event, Refusal};
use std::alloc::Global;

/// How many words the EEPROM has.
const EEPROM_WORDS: usize = 64;

/// What a run begins with: the number of the profile, where guest memory begins and of how many octets it is, the journal's
/// budget, and the EEPROM's words. Of a number that no profile has nothing is told.
#[unsafe(no_mangle)]
pub extern "C" fn kept_head(
    profile: u32,
    base: u64,
    memory: u64,
    budget: u64,
    words: &[u16; EEPROM_WORDS],
    text: &mut Text,
)
    ensures { Says text.new (head_of (profile_of profile) base memory budget words.now) }
{
    let eeprom = Eeprom::of_words(*words);
    tell_head_of(text, profile_of(profile), base, memory, budget, &eeprom);
}

/// Software reads a register.
#[unsafe(no_mangle)]
pub extern "C" fn kept_read(
    alloc: Global,
    machine: &mut EmMachine,
    offset: u32,
    file: &[u8],
    line: u32,
    counter: u64,
    text: &mut Text,
    value: &mut u32,
) -> u32
    ensures { KeepsRead machine.old.sealed.held offset (source_of file.now line counter) text.new value.old result value.new
        machine.new.sealed.held }
{
    let source = source_of(file, line, counter);
    match keep(alloc, machine, Event::Read(offset), source, text) {
        Ok(Answer::Value(read)) => tell(Ok(read), value),
        Ok(_) => tell(Ok(0), value),
        Err(refused) => refused.number(),
    }
}

/// Software writes a register.
#[unsafe(no_mangle)]
pub extern "C" fn kept_write(
    alloc: Global,
    machine: &mut EmMachine,
    offset: u32,
    value: u32,
    file: &[u8],
    line: u32,
    counter: u64,
    text: &mut Text,
) -> u32
    ensures { KeepsCall machine.old.sealed.held (writes offset value) (source_of file.now line counter) text.new result
        machine.new.sealed.held }
{
    let source = source_of(file, line, counter);
    number(keep(alloc, machine, Event::Write(offset, value), source, text))
}

/// Software writes octets to guest memory.
#[unsafe(no_mangle)]
pub extern "C" fn kept_poke(
    alloc: Global,
    machine: &mut EmMachine,
    addr: u64,
    octets: &[u8],
    file: &[u8],
    line: u32,
    counter: u64,
    text: &mut Text,
) -> u32
    ensures { KeepsCall machine.old.sealed.held (pokes addr octets.now) (source_of file.now line counter) text.new result
        machine.new.sealed.held }
{
    let source = source_of(file, line, counter);
    number(keep(alloc, machine, Event::Poke(addr, octets), source, text))
}

/// A frame arrives from the wire.
#[unsafe(no_mangle)]
pub extern "C" fn kept_arrive(
    alloc: Global,
    machine: &mut EmMachine,
    frame: &[u8],
    file: &[u8],
    line: u32,
    counter: u64,
    text: &mut Text,
) -> u32
    ensures { KeepsCall machine.old.sealed.held (arrives frame.now) (source_of file.now line counter) text.new result
        machine.new.sealed.held }
{
    let source = source_of(file, line, counter);
    number(keep(alloc, machine, Event::Arrive(frame), source, text))
}

/// The link goes up, or down.
#[unsafe(no_mangle)]
pub extern "C" fn kept_set_link(
    alloc: Global,
    machine: &mut EmMachine,
    up: bool,
    file: &[u8],
    line: u32,
    counter: u64,
    text: &mut Text,
) -> u32
    ensures { KeepsCall machine.old.sealed.held (links up) (source_of file.now line counter) text.new result
        machine.new.sealed.held }
{
    let source = source_of(file, line, counter);
    number(keep(alloc, machine, Event::Link(up), source, text))
}

/// The receive engine handles a descriptor.
#[unsafe(no_mangle)]
pub extern "C" fn kept_rx_step(
    alloc: Global,
    machine: &mut EmMachine,
    file: &[u8],
    line: u32,
    counter: u64,
    text: &mut Text,
) -> u32
    ensures { KeepsCall machine.old.sealed.held receives (source_of file.now line counter) text.new result
        machine.new.sealed.held }
{
    let source = source_of(file, line, counter);
    number(keep(alloc, machine, Event::RxStep, source, text))
}

/// The transmit engine handles a descriptor.
#[unsafe(no_mangle)]
pub extern "C" fn kept_tx_step(
    alloc: Global,
    machine: &mut EmMachine,
    file: &[u8],
    line: u32,
    counter: u64,
    text: &mut Text,
) -> u32
    ensures { KeepsCall machine.old.sealed.held transmits (source_of file.now line counter) text.new result
        machine.new.sealed.held }
{
    let source = source_of(file, line, counter);
    number(keep(alloc, machine, Event::TxStep, source, text))
}

/// Takes the newest `n` events back, or as many as there are, and tells how many.
#[unsafe(no_mangle)]
pub extern "C" fn kept_back(
    alloc: Global,
    machine: &mut EmMachine,
    n: usize,
    file: &[u8],
    line: u32,
    counter: u64,
    text: &mut Text,
    done: &mut usize,
) -> u32
    ensures done { Shows (steps_back machine.old.sealed.held n) done.old result done.new }
    ensures held { machine.new.sealed.held ≡ held_back machine.old.sealed.held n }
    ensures text { Says text.new (back_of machine.old.sealed.held n (source_of file.now line counter)) }
{
    let source = source_of(file, line, counter);
    let outcome = back(alloc, machine, n);
    text.clear();
    if let Ok(taken) = outcome {
        if em_kept::write_back(text, n as u64, taken as u64, source).is_err() {
            text.clear();
        }
    }
    tell(outcome, done)
}

/// Performs an event on the machine that is held, and tells its line.
fn keep(
    alloc: Global,
    machine: &mut EmMachine,
    event: Event<'_>,
    source: Source<'_>,
    text: &mut Text,
) -> Result<Answer, Refused>
    ensures { Keeps machine.old.sealed.held (events.plain event.entry) (sources.plain source.entry) text.new result
        machine.new.sealed.held }
{
    text.clear();
    let mut held = machine.take(alloc)?;
    let outcome = keep_held(&mut held, event, source, text);
    machine.put(held);
    outcome
}

/// Performs an event, and tells its line.
fn keep_held(
    machine: &mut Tagged,
    event: Event<'_>,
    source: Source<'_>,
    text: &mut Text,
) -> Result<Answer, Refused>
    ensures { KeepsHeld machine.old (events.plain event.entry) (sources.plain source.entry) text.new result
        machine.new }
{
    match machine.perform(event) {
        Ok(answer) => {
            tell_event(text, event, answer, source);
            Ok(answer)
        }
        Err(refusal) => {
            tell_refused(text, event, refusal, source);
            Err(Refused::of_event(refusal))
        }
    }
}

/// What a run begins with, of a profile, if there is one.
fn tell_head_of(
    text: &mut Text,
    profile: Option<Profile>,
    base: u64,
    memory: u64,
    budget: u64,
    eeprom: &Eeprom,
)
    ensures { Says text.new (head_of profile base memory budget eeprom.now) }
{
    match profile {
        Some(profile) => tell_head(text, profile, base, memory, budget, eeprom),
        None => text.clear(),
    }
}

/// What a run begins with; nothing where there is no room for all of it.
fn tell_head(
    text: &mut Text,
    profile: Profile,
    base: u64,
    memory: u64,
    budget: u64,
    eeprom: &Eeprom,
)
    ensures { Says text.new (head_text profile base memory budget eeprom.now) }
{
    text.clear();
    if em_kept::write_head(text, profile, base, memory, budget, eeprom).is_err() {
        text.clear();
    }
}

/// The line of an event that was performed; nothing where there is no room for all of it.
fn tell_event(text: &mut Text, event: Event<'_>, answer: Answer, source: Source<'_>)
    ensures { Says text.new (event_text (events.plain event.entry) answer (sources.plain source.entry)) }
{
    text.clear();
    if em_kept::write_event(text, event, answer, source).is_err() {
        text.clear();
    }
}

/// The line of an event that was refused; nothing where there is no room for all of it.
fn tell_refused(text: &mut Text, event: Event<'_>, refusal: Refusal, source: Source<'_>)
    ensures { Says text.new (refused_text (events.plain event.entry) refusal (sources.plain source.entry)) }
{
    text.clear();
    if em_kept::write_refused(text, event, refusal, source).is_err() {
        text.clear();
    }
}

/// Where a call comes from.
fn source_of<'a>(file: &'a [u8], line: u32, counter: u64) -> Source<'a>
    ensures { sources.plain result ≡ source_of file.now line counter }
{
    if !file.is_empty() {
        Source::Line { file, line }
    } else if counter != 0 {
        Source::Counter(counter)
    } else {
        Source::Unknown
    }
}
