//! Where a call comes from.
ghost use Rattle.std.specs.Prelude.{◌≡◌, ◌<◌, ◌++◌, length};
ghost use Rattle.std.specs.List.{list_all, range_with_len};
ghost use Rattle.em_text.specs.Writer.{Writes};
ghost use Rattle.em_line.specs.Parts.{begins_at};
ghost use Rattle.em_kept.specs.Source.{counter, end_text, is_replaced, is_solid, last_of, line_number_text, named_text};
ghost use Rattle.em_kept.specs.Source.{place_text, plain, shown, shown_at};

use crate::digits::{MOST_DIGITS, number_digits};
use em_text::{WriteFailed, write_number_line, write_pieces, write_whole};
use std::io::Write;

/// The most octets of a file's name that a line has: the longest path that Linux takes.
const MOST_NAME: usize = 4_096;

/// What stands for an octet that cannot stand in a line.
const REPLACED: u8 = b'?';

/// Where a call comes from, as its caller says.
#[derive(Clone, Copy)]
pub enum Source<'a> {
    /// Nobody says where.
    Unknown,
    /// A line of a file. Of a name of more than 4,096 octets the last ones are written. A `?` stands for each control
    /// octet, for a space at the front, and for a `#` there or behind a space.
    Line { file: &'a [u8], line: u32 },
    /// A program counter.
    Counter(u64),
}

/// Writes where a call comes from, if that is known, and the end of a line.
pub(crate) fn write_end<W: Write>(writer: &mut W, source: Source<'_>) -> Result<(), WriteFailed>
    ensures writes { Writes (W.contents writer.old) (W.contents writer.new) result (end_text (plain source.entry)) }
{
    match source {
        Source::Unknown => write_whole(writer, b"\n"),
        Source::Line { file, line } => write_place(writer, file, line),
        Source::Counter(at) => write_counter(writer, at),
    }
}

/// Writes a line of a file, and the end of a line.
fn write_place<W: Write>(writer: &mut W, file: &[u8], line: u32) -> Result<(), WriteFailed>
    ensures writes { Writes (W.contents writer.old) (W.contents writer.new) result (place_text file.now line) }
{
    write_whole(writer, b" @")?;
    write_named(writer, last_of(file), line)
}

/// Writes a program counter, and the end of a line.
fn write_counter<W: Write>(writer: &mut W, at: u64) -> Result<(), WriteFailed>
    ensures writes { Writes (W.contents writer.old) (W.contents writer.new) result (end_text (counter at)) }
{
    let mut room = [0; MOST_DIGITS];
    write_pieces(writer, &[b" @0x", number_digits(at, &mut room), b"\n"])
}

/// Writes a name with the number of a line, and the end of a line.
fn write_named<W: Write>(writer: &mut W, name: &[u8], line: u32) -> Result<(), WriteFailed>
    ensures writes { Writes (W.contents writer.old) (W.contents writer.new) result (named_text name.now line) }
{
    write_name(writer, name)?;
    write_line_number(writer, line)
}

/// Writes the number of a line behind a name, and the end of a line.
fn write_line_number<W: Write>(writer: &mut W, line: u32) -> Result<(), WriteFailed>
    ensures writes { Writes (W.contents writer.old) (W.contents writer.new) result (line_number_text line) }
{
    write_number_line(writer, b":", u64::from(line))
}

/// Writes a name with a `?` for each octet that cannot stand in a line: at once where each can stand anywhere.
fn write_name<W: Write>(writer: &mut W, name: &[u8]) -> Result<(), WriteFailed>
    ensures writes { Writes (W.contents writer.old) (W.contents writer.new) result (shown name.now) }
{
    if are_solid(name) {
        return write_whole(writer, name);
    }
    write_shown(writer, name)
}

/// Whether each octet of a name can stand anywhere in a line.
#[inline(always)]
fn are_solid(name: &[u8]) -> bool
    ensures { result ≡ list_all is_solid name.now }
{
    name.iter().all(|octet| is_solid(*octet))
}

/// Whether an octet can stand anywhere in a line: it is no control octet, no space and no hash.
#[inline(always)]
fn is_solid(octet: u8) -> bool
    ensures { result ≡ is_solid octet }
{
    !matches!(octet, 0..=32 | b'#' | 127)
}

/// The last octets of a name.
fn last_of(file: &[u8]) -> &[u8]
    ensures { result.now ≡ last_of file.now }
{
    &file[file.len().saturating_sub(MOST_NAME)..]
}

/// Writes a name octet by octet, with a `?` for each that cannot stand in a line.
#[inline(never)]
fn write_shown<W: Write>(writer: &mut W, name: &[u8]) -> Result<(), WriteFailed>
    ensures writes { Writes (W.contents writer.old) (W.contents writer.new) result (shown name.now) }
{
    for at in 0..name.len() {
        write_whole(writer, &[shown_at(name, at)])?;
    }
    Ok(())
}

/// What is written of an octet of a name.
fn shown_at(name: &[u8], at: usize) -> u8
    requires { at < length name.now }
    ensures { result ≡ shown_at name.now at }
{
    if is_replaced(name, at) {
        REPLACED
    } else {
        name[at]
    }
}

/// Whether an octet of a name cannot stand in a line.
#[inline(always)]
fn is_replaced(name: &[u8], at: usize) -> bool
    requires { at < length name.now }
    ensures { result ≡ is_replaced name.now at }
{
    match name[at] {
        0..32 | 127 => true,
        b'#' => begins_at(name, at),
        b' ' => at == 0,
        _ => false,
    }
}

/// Whether a word begins at a place of a name if any stands there.
fn begins_at(name: &[u8], at: usize) -> bool
    requires { at < length name.now }
    ensures { result ≡ begins_at name.now at }
{
    at == 0 || matches!(name[at - 1], b' ' | b'\t' | b'\r')
}
