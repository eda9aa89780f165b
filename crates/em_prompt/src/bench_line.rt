//! A line of em_bench's, as it is kept.
ghost use Rattle.std.specs.Prelude.{◌≡◌, ◌++◌, codes};
ghost use Rattle.em_text.specs.Writer.{Writes, value_digits};
ghost use Rattle.em_prompt.specs.BenchLine.{plain, text_of};
ghost use Rattle.em_prompt.specs.Command.{name_of};
ghost use Rattle.em_prompt.specs.Kept.{behind_text, kept_text, spaced};

use crate::command::Command;
use crate::kept::{Kept, KeptWords};
use em_text::{WriteFailed, write_octets, write_whole};
use std::io::Write;

/// A line of em_bench's: a command of its language, and the words behind the name as em_bench reads them.
#[derive(Clone, Copy)]
pub struct BenchLine<'a> {
    pub(crate) command: Command,
    pub(crate) words: KeptWords<'a>,
}

impl BenchLine<'_> {
    ghost use Rattle.std.specs.Prelude.{◌≡◌};
    ghost use Rattle.em_text.specs.Writer.{Writes};
    ghost use Rattle.em_prompt.specs.BenchLine.{plain, text_of};

    /// The command of em_bench's language that it is.
    pub fn command(&self) -> Command
        ensures { result ≡ self.now.command }
    {
        self.command
    }

    /// Writes its text as em_bench reads it, without a newline: a register that was named as its offset, bits as their
    /// value, numbers without `0x`, an Ethernet address without colons.
    pub fn write<W: Write>(&self, writer: &mut W) -> Result<(), WriteFailed>
        ensures writes { Writes (W.contents writer.old) (W.contents writer.new) result (text_of (plain self.now)) }
    {
        write_name(writer, self.command)?;
        write_behind(writer, self.words)
    }
}

fn write_name<W: Write>(writer: &mut W, command: Command) -> Result<(), WriteFailed>
    ensures writes { Writes (W.contents writer.old) (W.contents writer.new) result (name_of command) }
{
    write_whole(writer, command.name().as_bytes())
}

/// Writes what stands behind a name.
fn write_behind<W: Write>(writer: &mut W, words: KeptWords<'_>) -> Result<(), WriteFailed>
    ensures writes { Writes (W.contents writer.old) (W.contents writer.new) result (behind_text words.entry) }
{
    match words {
        KeptWords::None => Ok(()),
        KeptWords::One(word) => write_spaced(writer, word),
        KeptWords::Two(first, second) => write_two(writer, first, second),
        KeptWords::Rest(rest) => write_whole(writer, rest),
    }
}

fn write_two<W: Write>(writer: &mut W, first: Kept<'_>, second: Kept<'_>) -> Result<(), WriteFailed>
    ensures writes { Writes (W.contents writer.old) (W.contents writer.new) result
        (spaced (kept_text first.entry) ++ spaced (kept_text second.entry)) }
{
    write_spaced(writer, first)?;
    write_spaced(writer, second)
}

/// Writes a word behind a space.
fn write_spaced<W: Write>(writer: &mut W, word: Kept<'_>) -> Result<(), WriteFailed>
    ensures writes { Writes (W.contents writer.old) (W.contents writer.new) result (spaced (kept_text word.entry)) }
{
    write_whole(writer, b" ")?;
    write_kept(writer, word)
}

fn write_kept<W: Write>(writer: &mut W, word: Kept<'_>) -> Result<(), WriteFailed>
    ensures writes { Writes (W.contents writer.old) (W.contents writer.new) result (kept_text word.entry) }
{
    match word {
        Kept::Word(octets) => write_whole(writer, octets),
        Kept::Value(value) => write_value(writer, value),
        Kept::Address(digits) => write_whole(writer, &digits),
    }
}

/// Writes a value in 8 hexadecimal digits.
fn write_value<W: Write>(writer: &mut W, value: u32) -> Result<(), WriteFailed>
    ensures writes { Writes (W.contents writer.old) (W.contents writer.new) result (value_digits value) }
{
    write_octets(writer, &value.to_be_bytes())
}
