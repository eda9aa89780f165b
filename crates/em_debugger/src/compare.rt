//! Comparing the answers of a script with those that its lines expect.
ghost use Rattle.std.specs.Prelude.{◌≡◌, ℕ, List, OnOk};
ghost use Rattle.std.specs.Io.KnownBytes.{Appends};
ghost use Rattle.em_debugger.specs.Compare.{Compares, TellsDiffers, TellsParts, TellsRegister, before_line, differing};
ghost use Rattle.em_debugger.specs.Compare.{known_of, value_of};
ghost use Rattle.em_text.specs.Writer.{Writes};
ghost use Rattle.em_debugger.specs.Expected.{wanted};
ghost use Rattle.em_debugger.specs.Place.{text_of};

use crate::debugger::Debugger;
use crate::departures::write_departure;
use crate::performing::Performed;
use crate::place::text_of;
use crate::reading::access_said;
use crate::stops::{Ran, Stop};
use em_expect::register_of;
use em_regs::Reg;
use em_script::{BenchFault, Outcome};
use em_step::Answer;
use em_text::WriteFailed;
use em_watch::Watch;
use std::io::Write;

/// A line whose answer differs from the one that it expects.
#[derive(Clone, Copy)]
pub struct Differing {
    /// The line's number.
    pub line: usize,
    /// The register that it reads, if it reads one.
    pub reg: Option<Reg>,
    /// The value that the read gave.
    pub value: Option<u32>,
    performed: Performed,
}

/// What a comparison came to.
#[derive(Clone, Copy)]
pub enum Compared {
    /// No answer differs up to the last line.
    Agrees,
    /// This answer differs.
    Differs(Differing),
    /// The line could not be performed.
    Stopped(BenchFault),
}

impl Debugger {
    /// Performs lines up to the next answer that is another than its line expects.
    pub fn compare(&mut self) -> Compared
        ensures { Compares self.old self.new result }
    {
        let (_lines, ran) = self.play_until(Stop::Differs);
        match ran {
            Ran::Behind(performed) => Compared::Differs(self.differing(performed)),
            Ran::Fault(fault) => Compared::Stopped(fault),
            Ran::End => Compared::Agrees,
            // only a run up to a line ends before one
            Ran::Before(_) => Compared::Agrees,
        }
    }

    fn differing(&self, performed: Performed) -> Differing
        ensures { result ≡ differing performed self.now }
    {
        Differing {
            line: performed.line,
            reg: register_of(access_said(&self.tape, performed.line)),
            value: value_of(performed.outcome),
            performed,
        }
    }

    /// What is played of a line.
    pub fn line_played(&self, line: usize) -> &[u8]
        ensures { result.now ≡ text_of line self.now.tape }
    {
        text_of(&self.tape, line)
    }

    /// The answer that a line expects; no octet, where it expects none.
    pub fn line_expects(&self, line: usize) -> &[u8]
        ensures { result.now ≡ wanted line self.now }
    {
        self.wanted.of(line)
    }

    /// Shows a line whose answer differs, right behind it, what is known of that, if it is a known difference, and who changed
    /// the register last that the line reads.
    pub fn tell_differs<W: Write>(
        &mut self,
        writer: &mut W,
        differing: Differing,
        is_known: bool,
    ) -> Result<(), WriteFailed>
        ensures ok { OnOk result ((text : List ℕ) × Appends (W.contents writer.old) (W.contents writer.new) text
            × TellsDiffers self.old self.new differing is_known text) }
    {
        self.tell_parts(writer, differing.performed, differing.reg, is_known)
    }

    /// The same of a line that reads this register, or none.
    fn tell_parts<W: Write>(
        &mut self,
        writer: &mut W,
        performed: Performed,
        reg: Option<Reg>,
        is_known: bool,
    ) -> Result<(), WriteFailed>
        ensures ok { OnOk result ((text : List ℕ) × Appends (W.contents writer.old) (W.contents writer.new) text
            × TellsParts self.old self.new performed reg is_known text) }
    {
        self.write_performed(writer, performed)?;
        let before = self.before_line(performed);
        match reg {
            Some(reg) => self.tell_register(writer, reg, before, is_known),
            None => Ok(()),
        }
    }

    /// How many steps back lead before a line.
    fn before_line(&self, performed: Performed) -> usize
        ensures { result ≡ before_line performed self.now }
    {
        let lines = performed.line.saturating_sub(1).min(self.tape.performed());
        self.tape.behind(self.tape.end_of(lines))
    }

    /// Tells what is known of a register's differences, if this is one of those, and who changed it last, from so many steps back on.
    fn tell_register<W: Write>(
        &mut self,
        writer: &mut W,
        reg: Reg,
        before: usize,
        is_known: bool,
    ) -> Result<(), WriteFailed>
        ensures ok { OnOk result ((text : List ℕ) × Appends (W.contents writer.old) (W.contents writer.new) text
            × TellsRegister self.old self.new reg before is_known text) }
    {
        write_known(writer, reg, is_known)?;
        self.who_before(writer, Watch::Register(reg), before)
    }
}

/// Writes what is known of a register's differences, if this is one of those.
fn write_known<W: Write>(writer: &mut W, reg: Reg, is_known: bool) -> Result<(), WriteFailed>
    ensures writes { Writes (W.contents writer.old) (W.contents writer.new) result (known_of is_known reg) }
{
    if is_known {
        write_departure(writer, reg)
    } else {
        Ok(())
    }
}

/// The value that a read gave which came out so.
fn value_of(outcome: Outcome) -> Option<u32>
    ensures { result ≡ value_of outcome }
{
    match outcome {
        Outcome::Answered(Answer::Value(value)) => Some(value),
        _ => None,
    }
}
