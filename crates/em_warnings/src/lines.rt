//! The warnings of an event.
ghost use Rattle.std.specs.Prelude.{◌≡◌, [], ◌∷◌};
ghost use Rattle.std.specs.Option.{option_map};
ghost use Rattle.em_step.specs.Event.{plain};
ghost use Rattle.em_text.specs.Writer.{Writes};
ghost use Rattle.em_warnings.specs.Warnings.{found_count, found_of, found_text, is_asked, line_of, lines_of, of_done};
ghost use Rattle.em_warnings.specs.Warnings.{of_read, of_write, there};

use crate::owned::written_while_owned;
use crate::reads::read_again;
use crate::rules::{RULES, alone, warnings_of};
use crate::said::write_warning;
use crate::warning::Warning;
use crate::write_line::written_by;
use em_expect::register_of;
use em_inspect::Extent;
use em_journal::Machine;
use em_regs::Reg;
use em_step::{Answer, Event, Refusal};
use em_text::WriteFailed;
use std::io::Write;

/// What each rule says of an event, in the order of the rules, if they are asked.
pub type Found = Option<[Option<Warning>; RULES]>;

/// Whether the rules are asked of what came to this. Most of what lines come to has no warning, whatever they say: so a line
/// need not be read before this is asked.
pub fn is_asked(came: Option<Result<Answer, Refusal>>) -> bool
    ensures { result ≡ is_asked came }
{
    matches!(came, Some(Ok(Answer::Done | Answer::Value(0))))
}

/// What each rule says of an event that came to this, in the order of the rules, if they are asked: only a write of a register
/// that was done has warnings, and a write of guest memory and a read of ICR that gave 0 one each. The machine is as the event
/// left it.
pub fn found_of(
    machine: &Machine,
    event: Option<Event<'_>>,
    came: Option<Result<Answer, Refusal>>,
) -> Found
    ensures { result ≡ found_of machine.now (option_map plain event.entry) came }
{
    match came {
        Some(Ok(Answer::Done)) => of_done(machine, event),
        Some(Ok(Answer::Value(0))) => of_read(machine, register_of(event)),
        _ => None,
    }
}

/// What each rule says of an event that was done: a write of a register, or one of guest memory, of which one rule asks.
fn of_done(machine: &Machine, event: Option<Event<'_>>) -> Found
    ensures { result ≡ of_done machine.now (option_map plain event.entry) }
{
    match event {
        Some(Event::Poke(at, octets)) => {
            let write = Extent {
                at,
                size: octets.len() as u64,
            };
            Some(alone(written_while_owned(machine, write)))
        }
        Some(event) => of_write(machine, written_by(event)),
        None => None,
    }
}

/// What each rule says of a write of a value to a register.
fn of_write(machine: &Machine, write: Option<(Reg, u32)>) -> Found
    ensures { result ≡ of_write machine.now write }
{
    match write {
        Some((reg, value)) => Some(warnings_of(machine, reg, value)),
        None => None,
    }
}

/// What the rule of a read says of a read of a register that gave 0.
fn of_read(machine: &Machine, read: Option<Reg>) -> Found
    ensures { result ≡ of_read machine.now read }
{
    match read {
        Some(Reg::Icr) => Some(alone(read_again(machine))),
        _ => None,
    }
}

/// How many warnings were found.
pub fn count_found(found: &Found) -> usize
    ensures { result ≡ found_count found.now }
{
    match found {
        Some(warnings) => count_of(warnings),
        None => 0,
    }
}

/// How many warnings are there.
fn count_of(warnings: &[Option<Warning>]) -> usize
    ensures { result ≡ there warnings.now }
{
    let mut count = 0;
    for warning in warnings {
        match warning {
            Some(_) => count += 1,
            None => {}
        }
    }
    count
}

/// Writes a line for each warning that was found.
pub fn write_found<W: Write>(writer: &mut W, found: &Found) -> Result<(), WriteFailed>
    ensures writes { Writes (W.contents writer.old) (W.contents writer.new) result (found_text found.now) }
{
    match found {
        Some(warnings) => write_each(writer, warnings),
        None => Ok(()),
    }
}

/// Writes a line for each warning that is there.
fn write_each<W: Write>(writer: &mut W, warnings: &[Option<Warning>]) -> Result<(), WriteFailed>
    ensures writes { Writes (W.contents writer.old) (W.contents writer.new) result (lines_of warnings.now) }
{
    for warning in warnings {
        write_line(writer, *warning)?;
    }
    Ok(())
}

fn write_line<W: Write>(writer: &mut W, warning: Option<Warning>) -> Result<(), WriteFailed>
    ensures writes { Writes (W.contents writer.old) (W.contents writer.new) result (line_of warning) }
{
    match warning {
        Some(warning) => write_warning(writer, warning),
        None => Ok(()),
    }
}
