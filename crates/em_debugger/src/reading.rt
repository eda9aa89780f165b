//! What the lines of a tape say: em_line is asked here, and nowhere else. They are kept as the texts that are played, so a line
//! that is asked about is read; most are not. A look that is typed among lines gets no place on the tape, and is read here too.
ghost use Rattle.std.specs.Prelude.{◌≡◌, IfOk};
ghost use Rattle.std.specs.Option.{option_map};
ghost use Rattle.em_step.specs.Event.{plain as plain_event};
ghost use Rattle.em_line.specs.Command.{plain as plain_command};
ghost use Rattle.em_line.specs.Grammar.{parsed_line};
ghost use Rattle.em_line.specs.ParsedLine.{command_in};
ghost use Rattle.em_debugger.specs.Reading.{access_said, command_said, event_read, event_said, event_where, undone_event};

use crate::place::text_of;
use em_line::{Command, Line, accessed, command_of};
use em_reasons::is_undone;
use em_step::{Answer, Event, Refusal};
use em_tape::Tape;
use std::alloc::{AllocError, Global};

/// The access to a register that a line says, if it says one.
pub(crate) fn access_said(tape: &Tape, line: usize) -> Option<Event<'static>>
    ensures { option_map plain_event result ≡ access_said line tape.now }
{
    accessed(text_of(tape, line))
}

/// The command that a line says, where it brings no octets.
pub(crate) fn command_said(tape: &Tape, line: usize) -> Option<Command<'static>>
    ensures { option_map plain_command result ≡ command_said line tape.now }
{
    command_in(text_of(tape, line))
}

/// The command that a text says which is played, where it brings no octets.
pub(crate) fn command_in(text: &[u8]) -> Option<Command<'static>>
    ensures { option_map plain_command result ≡ command_in (parsed_line text.now) }
{
    command_of(text)
}

/// A line that came to this, read where its event did nothing; of another nobody asks for the event. Memory is taken for the
/// octets that it brings.
pub(crate) fn read_undone(
    alloc: Global,
    tape: &Tape,
    line: usize,
    came: Option<Result<Answer, Refusal>>,
) -> Result<Option<Line<'_>>, AllocError>
    ensures { IfOk result (λ read. event_read read ≡ undone_event came (event_said line tape.now)) }
{
    read_where(alloc, tape, line, is_undone(came))
}

/// A line, read where its event is asked for. Memory is taken for the octets that it brings.
pub(crate) fn read_where(
    alloc: Global,
    tape: &Tape,
    line: usize,
    asked: bool,
) -> Result<Option<Line<'_>>, AllocError>
    ensures { IfOk result (λ read. event_read read ≡ event_where asked (event_said line tape.now)) }
{
    if !asked {
        return Ok(None);
    }
    let read = Line::read(alloc, text_of(tape, line))?;
    Ok(Some(read))
}

/// The event that a line says, if it was read and says one.
pub(crate) fn event_read<'a>(read: &'a Option<Line<'_>>) -> Option<Event<'a>>
    ensures { option_map plain_event result ≡ event_read read.now }
{
    match read {
        Some(line) => line.event(),
        None => None,
    }
}
