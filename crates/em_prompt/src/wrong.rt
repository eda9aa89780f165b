//! What is wrong with a line, and its text.
ghost use Rattle.std.specs.Prelude.{◌++◌, codes, decimal};
ghost use Rattle.em_text.specs.Writer.{Writes};
ghost use Rattle.em_names.specs.Names.{name_of};
ghost use Rattle.em_prompt.specs.Command.{name_of as name_of_command};
ghost use Rattle.em_prompt.specs.Fault.{plain as plain_fault};
ghost use Rattle.em_prompt.specs.Prompt.{plain_wrong};
ghost use Rattle.em_prompt.specs.WrongText.{wrong_text, fault_text, at_text, near_text, no_command_text, none_near_text};
ghost use Rattle.em_prompt.specs.WrongText.{no_register_text, other_text};

use crate::command::Command;
use crate::fault::Fault;
use crate::foreign::Foreign;
use crate::near::near_of;
use em_names::name;
use em_regs::Reg;
use em_text::{WriteFailed, write_pieces};
use itoa::Buffer;
use std::io::Write;

/// What is wrong with a line.
#[derive(Clone, Copy)]
pub enum Wrong<'a> {
    /// Its first word is the name of no command.
    Unknown(&'a [u8]),
    /// The words behind the name of a command are.
    Behind(Command, Fault<'a>),
}

/// Writes what is wrong with a line, without a newline. Where a word names no register, `near` are those that may be
/// meant, as `nearest` of em_names finds them.
pub fn write_wrong<W: Write>(
    writer: &mut W,
    wrong: Wrong<'_>,
    near: Option<[Reg; 3]>,
) -> Result<(), WriteFailed>
    ensures writes { Writes (W.contents writer.old) (W.contents writer.new) result
        (wrong_text near (plain_wrong wrong.entry)) }
{
    match wrong {
        Wrong::Unknown(word) => write_no_command(writer, word),
        Wrong::Behind(command, fault) => write_fault(writer, command, fault, near),
    }
}

/// Writes a fault behind a command's name.
fn write_fault<W: Write>(
    writer: &mut W,
    command: Command,
    fault: Fault<'_>,
    near: Option<[Reg; 3]>,
) -> Result<(), WriteFailed>
    ensures writes { Writes (W.contents writer.old) (W.contents writer.new) result
        (fault_text near command (plain_fault fault.entry)) }
{
    match fault {
        Fault::Missing(kind) => write_missing(
            writer,
            command.name().as_bytes(),
            kind.called().as_bytes(),
        ),
        Fault::TooMany(word) => write_too_many(writer, command.name().as_bytes(), word),
        Fault::No(kind) => write_at(
            writer,
            command,
            kind.called().as_bytes(),
            kind.rule().as_bytes(),
        ),
        Fault::OddDigits(count) => write_odd_digits(writer, command, count),
        Fault::NoRegister(word) => write_no_register(writer, word, near),
        Fault::NoBit(word, reg) => write_no_bit(writer, word, reg),
        Fault::NoCommand(word) => write_no_command(writer, word),
    }
}

fn write_missing<'a, W: Write>(
    writer: &mut W,
    at: &'a [u8],
    what: &'a [u8],
) -> Result<(), WriteFailed>
    ensures writes { Writes (W.contents writer.old) (W.contents writer.new) result
        (at.now ++ (codes ": " ++ (what.now ++ codes " is missing"))) }
{
    write_pieces(writer, &[at, b": ", what, b" is missing"])
}

fn write_too_many<'a, W: Write>(
    writer: &mut W,
    at: &'a [u8],
    word: &'a [u8],
) -> Result<(), WriteFailed>
    ensures writes { Writes (W.contents writer.old) (W.contents writer.new) result
        (at.now ++ (codes ": " ++ (word.now ++ codes " is too much"))) }
{
    write_pieces(writer, &[at, b": ", word, b" is too much"])
}

fn write_odd_digits<W: Write>(
    writer: &mut W,
    command: Command,
    count: usize,
) -> Result<(), WriteFailed>
    ensures writes { Writes (W.contents writer.old) (W.contents writer.new) result
        (name_of_command command ++ (codes ": " ++ (decimal count ++ codes " digits are no octets"))) }
{
    let mut digits = Buffer::new();
    write_no_octets(
        writer,
        command.name().as_bytes(),
        digits.format(count).as_bytes(),
    )
}

fn write_no_octets<'a, W: Write>(
    writer: &mut W,
    at: &'a [u8],
    digits: &'a [u8],
) -> Result<(), WriteFailed>
    ensures writes { Writes (W.contents writer.old) (W.contents writer.new) result
        (at.now ++ (codes ": " ++ (digits.now ++ codes " digits are no octets"))) }
{
    write_pieces(writer, &[at, b": ", digits, b" digits are no octets"])
}

/// Writes a text behind a command's name, and its end.
fn write_at<'a, W: Write>(
    writer: &mut W,
    command: Command,
    text: &'a [u8],
    end: &'a [u8],
) -> Result<(), WriteFailed>
    ensures writes { Writes (W.contents writer.old) (W.contents writer.new) result
        (at_text command text.now end.now) }
{
    let name: &'a [u8] = command.name().as_bytes();
    write_pieces(writer, &[name, b": ", text, end])
}

fn write_no_command<W: Write>(writer: &mut W, word: &[u8]) -> Result<(), WriteFailed>
    ensures writes { Writes (W.contents writer.old) (W.contents writer.new) result (no_command_text word.now) }
{
    match Foreign::of(word) {
        Some(foreign) => write_other(writer, word, b", here: ", foreign.here().as_bytes()),
        None => write_none_near(writer, word, near_of(word)),
    }
}

/// Writes that a word names no command, and which may be meant, if one may.
fn write_none_near<W: Write>(
    writer: &mut W,
    word: &[u8],
    near: Option<Command>,
) -> Result<(), WriteFailed>
    ensures writes { Writes (W.contents writer.old) (W.contents writer.new) result (none_near_text word.now near) }
{
    match near {
        None => write_pieces(
            writer,
            &[b"no command ", word, b": help says which there are"],
        ),
        Some(near) => write_other(writer, word, b", near: ", near.name().as_bytes()),
    }
}

/// Writes that a word names no command, and what else is to be typed.
fn write_other<'a, W: Write>(
    writer: &mut W,
    word: &'a [u8],
    before: &'a [u8],
    other: &'a [u8],
) -> Result<(), WriteFailed>
    ensures writes { Writes (W.contents writer.old) (W.contents writer.new) result
        (other_text word.now before.now other.now) }
{
    write_pieces(
        writer,
        &[
            b"no command ",
            word,
            before,
            other,
            b"; help says which there are",
        ],
    )
}

fn write_no_bit<W: Write>(writer: &mut W, word: &[u8], reg: Reg) -> Result<(), WriteFailed>
    ensures writes { Writes (W.contents writer.old) (W.contents writer.new) result
        (codes "no bit " ++ (word.now ++ (codes " in " ++ name_of reg))) }
{
    write_pieces(
        writer,
        &[b"no bit ", word, b" in ", name(reg).as_str().as_bytes()],
    )
}

fn write_no_register<W: Write>(
    writer: &mut W,
    word: &[u8],
    near: Option<[Reg; 3]>,
) -> Result<(), WriteFailed>
    ensures writes { Writes (W.contents writer.old) (W.contents writer.new) result
        (no_register_text near word.now) }
{
    write_pieces(writer, &[b"no register ", word])?;
    write_near(writer, near)
}

/// Writes registers that may be meant: `: RDT, RDTR, RCTL?`.
fn write_near<W: Write>(writer: &mut W, near: Option<[Reg; 3]>) -> Result<(), WriteFailed>
    ensures writes { Writes (W.contents writer.old) (W.contents writer.new) result (near_text near) }
{
    let Some(near) = near else {
        return Ok(());
    };
    let first = name(near[0]);
    let second = name(near[1]);
    let third = name(near[2]);
    write_pieces(
        writer,
        &[
            b": ",
            first.as_str().as_bytes(),
            b", ",
            second.as_str().as_bytes(),
            b", ",
            third.as_str().as_bytes(),
            b"?",
        ],
    )
}
