//! How a run of the program ends.
ghost use Rattle.std.specs.Prelude.{◌≡◌};
ghost use Rattle.std.specs.IoError.{error_kind};
ghost use Rattle.clap.specs.Words.{kind_of};
ghost use Rattle.em_text.specs.Writer.{Writes};
ghost use Rattle.em_ending.specs.Ending.{after_print, ending_of_kind, ending_of_open, ending_of_refusal};
ghost use Rattle.em_ending.specs.Ending.{ending_of_run, ending_of_settings, ending_of_words, error_line_of};
ghost use Rattle.em_ending.specs.Ending.{memory_or, status_of, told_text};

use clap::error::ErrorKind;
use em_journal::SettingsRefusal;
use em_options::OptionsRefused;
use em_run::Summary;
use em_script::BenchFault;
use em_text::{WriteFailed, write_pieces};
use std::io::{self, Write};

/// The status where no line was bad, or help was asked for.
const WELL: u8 = 0;

/// The status where a line was bad.
const BAD_LINE: u8 = 1;

/// The status where the command line was refused.
const BAD_WORDS: u8 = 2;

/// The status where the run stopped, or could not begin.
const STOPPED: u8 = 3;

/// How a run of the program ends.
#[derive(Clone, Copy)]
pub enum Ending {
    /// The script was run to its end.
    Ran(Summary),
    /// Help or the version was asked for.
    Help,
    /// The parser refused the command line.
    Parser,
    /// The address is not 12 hexadecimal digits.
    Mac,
    /// The size of memory is not allowed.
    Size,
    /// The budget is not allowed.
    Budget,
    /// The script could not be read, its text could not be written, or memory was refused.
    Fault(BenchFault),
}

impl Ending {
    /// The status with which the program ends, from 0 to 3.
    pub fn status(&self) -> u8
        ensures { result ≡ status_of self.now }
    {
        match self {
            Ending::Ran(summary) if summary.bad == 0 => WELL,
            Ending::Ran(_) => BAD_LINE,
            Ending::Help => WELL,
            Ending::Parser | Ending::Mac | Ending::Size | Ending::Budget => BAD_WORDS,
            Ending::Fault(_) => STOPPED,
        }
    }

    /// The line on standard error, without its newline. It is empty where the program has no line
    /// of its own: where nothing is wrong but perhaps lines of the script, and where the parser
    /// says what is wrong.
    pub fn error_line(&self) -> &'static str
        ensures { result.now ≡ error_line_of self.now }
    {
        match self {
            Ending::Ran(_) | Ending::Help | Ending::Parser => "",
            Ending::Mac => "em_bench: Mac",
            Ending::Size => "em_bench: Size",
            Ending::Budget => "em_bench: Budget",
            Ending::Fault(BenchFault::Read) => "em_bench: Read",
            Ending::Fault(BenchFault::Write) => "em_bench: Write",
            Ending::Fault(BenchFault::TooLarge) => "em_bench: TooLarge",
            Ending::Fault(BenchFault::Memory) => "em_bench: Memory",
        }
    }
}

impl Ending {
    /// How it ends where the words of its command line can't be had: for want of memory, or since one
    /// of them is no text.
    pub fn without_words(error: &io::Error) -> Ending
        ensures { result ≡ ending_of_words (error_kind error.now) }
    {
        memory_or(error, Ending::Parser)
    }

    /// How it ends where its command line is refused.
    pub fn without_options(refused: &OptionsRefused) -> Ending
        ensures { result ≡ ending_of_refusal refused.now }
    {
        match refused {
            OptionsRefused::Parser(error) => parser_ending(error.kind()),
            OptionsRefused::Mac => Ending::Mac,
        }
    }

    /// How it ends where the script can't be opened.
    pub fn without_script(error: &io::Error) -> Ending
        ensures { result ≡ ending_of_open (error_kind error.now) }
    {
        memory_or(error, Ending::Fault(BenchFault::Read))
    }

    /// How it ends once the parser's text was printed, or could not be.
    pub fn after_print(self, is_printed: bool) -> Ending
        ensures { result ≡ after_print is_printed self }
    {
        match self {
            Ending::Help if !is_printed => Ending::Fault(BenchFault::Write),
            _ => self,
        }
    }

    /// Writes the line of its own that the program has for this ending, if there is one.
    pub fn tell<W: Write>(&self, writer: &mut W) -> Result<(), WriteFailed>
        ensures { Writes (W.contents writer.old) (W.contents writer.new) result (told_text self.now) }
    {
        let line = self.error_line();
        if line.is_empty() {
            return Ok(());
        }
        write_pieces(writer, &[line.as_bytes(), b"\n"])
    }
}

/// Want of memory is named as such, wherever it comes.
fn memory_or(error: &io::Error, other: Ending) -> Ending
    ensures { result ≡ memory_or (error_kind error.now) other }
{
    match error.kind() {
        io::ErrorKind::OutOfMemory => Ending::Fault(BenchFault::Memory),
        _ => other,
    }
}

/// How the program ends where the parser gives this kind of answer.
fn parser_ending(kind: ErrorKind) -> Ending
    ensures { result ≡ ending_of_kind kind }
{
    match kind {
        ErrorKind::DisplayHelp | ErrorKind::DisplayVersion => Ending::Help,
        ErrorKind::OutOfMemory => Ending::Fault(BenchFault::Memory),
        _ => Ending::Parser,
    }
}

impl From<SettingsRefusal> for Ending {
    ghost from_gives = { λ refusal ending. ending ≡ ending_of_settings refusal };

    fn from(refusal: SettingsRefusal) -> Ending {
        match refusal {
            SettingsRefusal::Size => Ending::Size,
            SettingsRefusal::Budget => Ending::Budget,
            SettingsRefusal::Memory => Ending::Fault(BenchFault::Memory),
        }
    }
}

impl From<Result<Summary, BenchFault>> for Ending {
    ghost from_gives = { λ ran ending. ending ≡ ending_of_run ran };

    fn from(ran: Result<Summary, BenchFault>) -> Ending {
        match ran {
            Ok(summary) => Ending::Ran(summary),
            Err(fault) => Ending::Fault(fault),
        }
    }
}
