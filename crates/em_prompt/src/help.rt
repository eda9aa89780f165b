//! The help: a line for each command.
ghost use Rattle.std.specs.List.{flat_map};
ghost use Rattle.em_text.specs.Writer.{Writes};
ghost use Rattle.em_prompt.specs.Help.{line_of, line_of_look, help_text};

use crate::command::{COMMANDS, Command, LOOKS_AT};
use em_line::{LOOKS, Look};
use em_text::{WriteFailed, write_pieces, write_whole};
use std::io::Write;

/// What stands behind all of them.
const WORDS: &[u8] = b"WATCH is a register, ADDR LEN, line, link, frames, sent or PHY N.\n";

/// Writes a line for each command.
pub fn write_whole_help<W: Write>(writer: &mut W) -> Result<(), WriteFailed>
    ensures writes { Writes (W.contents writer.old) (W.contents writer.new) result help_text }
{
    write_lines(writer, &COMMANDS[..LOOKS_AT])?;
    write_looks(writer, &LOOKS)?;
    write_lines(writer, &COMMANDS[LOOKS_AT..])?;
    write_whole(writer, WORDS)
}

/// Writes the lines of em_bench's looks.
fn write_looks<W: Write>(writer: &mut W, looks: &[Look]) -> Result<(), WriteFailed>
    ensures writes { Writes (W.contents writer.old) (W.contents writer.new) result (flat_map line_of_look looks.now) }
{
    for look in looks {
        write_help(writer, Command::Bench(*look))?;
    }
    Ok(())
}

/// Writes the lines of commands.
fn write_lines<W: Write>(writer: &mut W, commands: &[Command]) -> Result<(), WriteFailed>
    ensures writes { Writes (W.contents writer.old) (W.contents writer.new) result (flat_map line_of commands.now) }
{
    for command in commands {
        write_help(writer, *command)?;
    }
    Ok(())
}

/// Writes the line of a command.
pub fn write_help<W: Write>(writer: &mut W, command: Command) -> Result<(), WriteFailed>
    ensures writes { Writes (W.contents writer.old) (W.contents writer.new) result (line_of command) }
{
    write_pieces(writer, &[command.help().as_bytes(), b"\n"])
}
