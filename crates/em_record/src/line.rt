//! A line of a script: what is played of it, what it is, and how its answer differs from the one that it expects.

use crate::fault::RecordFault;
use em_expect::{agrees_of, write_difference};
use em_frames::time_in;
use em_line::{Command, Line, Parts, Said, parts_of};
use em_prompt::scripted;
use em_regs::Profile;
use em_script::BenchFault;
use em_step::Event;
use em_text::WriteFailed;
use std::alloc::{AllocError, Global};

/// How many nanoseconds a microsecond has.
const MICROSECOND: u64 = 1_000;

/// The time of a line, in microseconds, if its comment is one.
pub fn time_of(parts: &Parts<'_>) -> Option<u64> {
    match time_in(parts.comment.unwrap_or_default()) {
        Some(time) => Some(time / MICROSECOND),
        None => None,
    }
}

/// What is played of a line that says this: names of registers and bits, `0x` and the like in the words that em_bench reads,
/// as em_debug keeps them where they are typed; all else as it stands. Registers are those of a profile.
pub fn played(alloc: Global, profile: Profile, said: &[u8]) -> Result<Vec<u8>, RecordFault> {
    let mut text = Vec::new(alloc);
    match scripted(profile, said) {
        Some(line) => line.write(&mut text).map_err(without_memory)?,
        None => text.extend_from_slice(said).map_err(AllocError::from)?,
    }
    Ok(text)
}

/// What a line is, in a word; none of one that says nothing, or has no form.
pub fn kind_of(says: &Said) -> Option<&'static [u8]> {
    match says {
        Said::Silent | Said::Bad => None,
        Said::Command(command) => Some(kind_of_command(*command)),
        Said::Poke(..) => Some(b"poke"),
        Said::Arrive(_) => Some(b"arrive"),
        Said::Request(_) => Some(b"driver"),
        Said::Plan(_) => Some(b"plan"),
    }
}

fn kind_of_command(command: Command<'_>) -> &'static [u8] {
    match command {
        Command::Event(event) => kind_of_event(event),
        Command::Peek(..) | Command::Look(_) => b"look",
        Command::Back | Command::BackBy(_) => b"back",
    }
}

fn kind_of_event(event: Event<'_>) -> &'static [u8] {
    match event {
        Event::Read(_) => b"read",
        Event::Write(..) => b"write",
        Event::Poke(..) => b"poke",
        Event::Arrive(_) => b"arrive",
        Event::Link(_) => b"link",
        Event::RxStep => b"rx",
        Event::TxStep => b"tx",
    }
}

/// Whether a line takes events back.
pub fn takes_back(alloc: Global, profile: Profile, text: &[u8]) -> Result<bool, RecordFault> {
    let said = played(alloc, profile, parts_of(text).said)?;
    let line = Line::read(alloc, said.as_slice())?;
    Ok(match line.says {
        Said::Command(Command::Back | Command::BackBy(_)) => true,
        _ => false,
    })
}

/// How an answer differs from the one that is expected, in a line of text; no octet where it does not, or where none is
/// expected.
pub fn difference(
    alloc: Global,
    line: &Line<'_>,
    expected: &[u8],
    answer: &[u8],
) -> Result<Vec<u8>, RecordFault> {
    let mut text = Vec::new(alloc);
    if !expected.is_empty() && !agrees_of(line.event(), expected, answer) {
        write_difference(&mut text, line.event(), expected, answer).map_err(without_memory)?;
    }
    Ok(text)
}

/// A vector fails only where memory is refused.
pub fn without_memory(_: WriteFailed) -> RecordFault {
    RecordFault::Bench(BenchFault::Memory)
}
