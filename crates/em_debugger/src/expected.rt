//! The answers that lines expect, and how many were given so.
ghost use Rattle.std.specs.Prelude.{◌≡◌, IfOk, [], true, false};
ghost use Rattle.std.specs.Option.{option_map};
ghost use Rattle.em_step.specs.Event.{plain as plain_event};
ghost use Rattle.em_text.specs.Writer.{Writes};
ghost use Rattle.em_tape.specs.Texts.{texts};
ghost use Rattle.em_debugger.specs.Expected.{answers_otherwise, asks_rules, compared_of, compared_text, differs};
ghost use Rattle.em_debugger.specs.Expected.{scored, scored_answer, wanted, warned_behind, warned_by, with_answer};

use crate::debugger::Debugger;
use crate::reading::access_said;
use em_expect::{agrees_of, write_difference};
use em_step::{Answer, Event, Refusal};
use em_text::WriteFailed;
use em_warnings::{Found, count_found, found_of, is_asked};
use std::alloc::AllocError;
use std::io::Write;

/// How many answers were as their lines expect, how many were not, and how many warnings lines had.
#[derive(Clone, Copy)]
pub struct Score {
    pub agreed: u64,
    pub differed: u64,
    pub warnings: u64,
}

impl Score {
    /// Before any answer.
    pub(crate) fn none() -> Score
        ensures { result ≡ record { agreed = 0; differed = 0; warnings = 0 } }
    {
        Score {
            agreed: 0,
            differed: 0,
            warnings: 0,
        }
    }

    /// With one answer more, which differs or does not.
    fn with(self, differs: bool) -> Score
        ensures { result ≡ with_answer self differs }
    {
        if differs {
            Score {
                differed: self.differed.saturating_add(1),
                ..self
            }
        } else {
            Score {
                agreed: self.agreed.saturating_add(1),
                ..self
            }
        }
    }
}

impl Score {
    ghost use Rattle.std.specs.Prelude.{◌≡◌, ◌+◌};
    ghost use Rattle.em_debugger.specs.Expected.{with_warnings};

    /// With so many warnings more.
    fn with_warnings(self, more: usize) -> Score
        ensures { result ≡ with_warnings self more }
    {
        Score {
            warnings: self.warnings.saturating_add(more as u64),
            ..self
        }
    }
}

impl Debugger {
    /// How many answers were as their lines expect so far, how many were not, and how many warnings lines had. An answer that
    /// is given again counts again, and so do its warnings.
    pub fn score(&self) -> Score
        ensures { result ≡ self.now.score }
    {
        self.score
    }

    /// Keeps which warnings a line has, and counts them, and its answer, if it expects one.
    pub(crate) fn count_answer(&mut self, line: usize, found: Found)
        requires { found ≡ warned_behind self.old line }
        ensures { self.new ≡ record self.old {
          score = scored self.old line;
          warned = found;
        } }
    {
        self.count_expected(line);
        self.score = self.score.with_warnings(count_found(&found));
        self.warned = found;
    }

    /// What the rules say of a line that came to this, if that is to be said and they are asked. Memory is taken for the octets
    /// that the line brings.
    pub(crate) fn warned_by(
        &self,
        line: usize,
        came: Option<Result<Answer, Refusal>>,
    ) -> Result<Found, AllocError>
        ensures { IfOk result (λ found. found ≡ warned_by self.now line came) }
    {
        if !self.asks_rules(came) {
            return Ok(None);
        }
        Ok(found_of(self.tape.machine(), access_said(&self.tape, line), came))
    }

    /// Whether the rules are asked of a line that came to this.
    fn asks_rules(&self, came: Option<Result<Answer, Refusal>>) -> bool
        ensures { result ≡ asks_rules self.now came }
    {
        self.warns && is_asked(came)
    }

    /// Counts the answer to a line, if the line expects one.
    fn count_expected(&mut self, line: usize)
        ensures { self.new ≡ record self.old { score = scored_answer self.old line } }
    {
        if !self.wanted.of(line).is_empty() {
            let differs = self.answers_otherwise(line);
            self.score = self.score.with(differs);
        }
    }

    /// Whether a line, whose answer was given last, expects another one.
    pub(crate) fn answers_otherwise(&self, line: usize) -> bool
        ensures { result ≡ answers_otherwise self.now line }
    {
        let wanted = self.wanted.of(line);
        // Most lines expect none, and need not be read.
        if wanted.is_empty() {
            return false;
        }
        let access = access_said(&self.tape, line);
        differs(access, wanted, self.answer.as_slice())
    }

    /// Writes how the answer to a line differs from the one that the line expects, if it does.
    pub(crate) fn write_compared<W: Write>(
        &self,
        writer: &mut W,
        line: usize,
    ) -> Result<(), WriteFailed>
        ensures writes { Writes (W.contents writer.old) (W.contents writer.new) result (compared_text self.now line) }
    {
        let wanted = self.wanted.of(line);
        if wanted.is_empty() {
            return Ok(());
        }
        let access = access_said(&self.tape, line);
        write_if_differs(writer, access, wanted, self.answer.as_slice())
    }
}

/// Writes how the answer to an event differs from the one that is wanted, if it does.
fn write_if_differs<W: Write>(
    writer: &mut W,
    event: Option<Event<'_>>,
    wanted: &[u8],
    answer: &[u8],
) -> Result<(), WriteFailed>
    ensures writes { Writes (W.contents writer.old) (W.contents writer.new) result
        (compared_of (option_map plain_event event.entry) wanted.now answer.now) }
{
    if differs(event, wanted, answer) {
        write_difference(writer, event, wanted, answer)
    } else {
        Ok(())
    }
}

/// Whether the answer to an event is another one than that which is wanted, if one is.
fn differs(event: Option<Event<'_>>, wanted: &[u8], answer: &[u8]) -> bool
    ensures { result ≡ differs (option_map plain_event event.entry) wanted.now answer.now }
{
    !wanted.is_empty() && !agrees_of(event, wanted, answer)
}
