//! A line of a script, read once.
ghost use Rattle.std.specs.Prelude.{◌≡◌, IfOk, OnErr, IsTrue};
ghost use Rattle.std.specs.Option.{option_map};
ghost use Rattle.em_line.specs.Grammar.{parsed_line};
ghost use Rattle.em_line.specs.Line.{IsLine};
ghost use Rattle.em_line.specs.ParsedLine.{takes_memory};
ghost use Rattle.em_line.specs.Parts.{said_in};

use crate::parts::{Parts, parts_of};
use crate::said::{Said, said_of};
use em_step::Event;
use std::alloc::{AllocError, Global};

/// A line of a script that was read: what it says, as data, and its parts as they stood. Names and numbers stand in
/// `parts.said` as they were written.
#[derive(Drop)]
pub struct Line<'a> {
    pub parts: Parts<'a>,
    pub says: Said,
}

impl<'a> Line<'a> {
    ghost use Rattle.std.specs.Prelude.{◌≡◌, IfOk, OnErr, IsTrue};
    ghost use Rattle.std.specs.Option.{option_map};
    ghost use Rattle.em_step.specs.Event.{plain as plain_event};
    ghost use Rattle.em_line.specs.Grammar.{parsed_line};
    ghost use Rattle.em_line.specs.Line.{IsLine};
    ghost use Rattle.em_line.specs.ParsedLine.{event_in, takes_memory};
    ghost use Rattle.em_line.specs.Parts.{said_in};
    ghost use Rattle.em_line.specs.Said.{plain};

    /// Reads a line: what em_bench takes, and what may stand behind that, as [`parts_of`] has it. Memory is taken for the
    /// octets that the line brings, and for a plan; a line that says neither can't be refused.
    pub fn read(alloc: Global, text: &'a [u8]) -> Result<Line<'a>, AllocError>
        ensures line { IfOk result (λ line. IsLine text.now line) }
        ensures memory { OnErr result (IsTrue (takes_memory (parsed_line (said_in text.now)))) }
    {
        let parts = parts_of(text);
        let says = said_of(alloc, parts.said)?;
        Ok(Line { parts, says })
    }

    /// The event that it says, if it says one.
    pub fn event(&self) -> Option<Event<'_>>
        ensures { option_map plain_event result ≡ event_in (plain self.now.says) }
    {
        self.says.event()
    }
}
