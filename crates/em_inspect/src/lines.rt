//! Octets in lines of 16.
ghost use Rattle.std.specs.Prelude.{◌≡◌, ◌+◌, ◌*◌, ◌<◌, ◌≤◌, ◌++◌, length};
ghost use Rattle.em_mem.specs.Memory.{part};
ghost use Rattle.em_text.specs.Writer.{Writes};
ghost use Rattle.em_inspect.specs.Lines.{line_at, line_text, lines_text};

use crate::piece::{Cell, Piece, write_line};
use em_text::WriteFailed;
use std::io::Write;

/// How many octets a line has.
const LINE_OCTETS: usize = 16;

/// The room of an octet: a space and two digits.
const CELL_ROOM: usize = 3;

/// The room of a line's octets.
const NO_OCTETS: [u8; CELL_ROOM * LINE_OCTETS] = [b' '; CELL_ROOM * LINE_OCTETS];

/// Writes octets that lie from an address on as lines of 16: the address of the first one, the octets, and the
/// characters that they are in ASCII.
pub fn write_octet_lines<W: Write>(
    writer: &mut W,
    address: u64,
    octets: &[u8],
) -> Result<(), WriteFailed>
    ensures writes { Writes (W.contents writer.old) (W.contents writer.new) result (lines_text address octets.now) }
{
    write_lines_in_two(writer, address, octets, b"")
}

/// Writes octets that are given in two parts as such lines.
pub(crate) fn write_lines_in_two<W: Write>(
    writer: &mut W,
    address: u64,
    front: &[u8],
    back: &[u8],
) -> Result<(), WriteFailed>
    ensures writes { Writes (W.contents writer.old) (W.contents writer.new) result
        (lines_text address (front.now ++ back.now)) }
{
    let size = front.len() + back.len();
    for line in 0..size.div_ceil(LINE_OCTETS) {
        write_line_at(writer, address, front, back, line)?;
    }
    Ok(())
}

/// Writes one of these lines, the first being number 0.
fn write_line_at<W: Write>(
    writer: &mut W,
    address: u64,
    front: &[u8],
    back: &[u8],
    line: usize,
) -> Result<(), WriteFailed>
    requires { 16 * line < length front.now + length back.now }
    ensures writes { Writes (W.contents writer.old) (W.contents writer.new) result
        (line_at address (front.now ++ back.now) line) }
{
    let from = LINE_OCTETS * line;
    let in_front = front.len().saturating_sub(from);
    write_octet_line(
        writer,
        u128::from(address) + from as u128,
        part(front, from, LINE_OCTETS),
        part(
            back,
            from.saturating_sub(front.len()),
            LINE_OCTETS.saturating_sub(in_front),
        ),
    )
}

/// Up to `len` octets from a place on.
fn part(octets: &[u8], from: usize, len: usize) -> &[u8]
    ensures { result.now ≡ part octets.now from len }
{
    let rest = &octets[from.min(octets.len())..];
    &rest[..len.min(rest.len())]
}

/// Writes a line of octets that are given in two parts.
fn write_octet_line<'a, W: Write>(
    writer: &mut W,
    address: u128,
    front: &'a [u8],
    back: &'a [u8],
) -> Result<(), WriteFailed>
    requires { length front.now + length back.now ≤ 16 }
    ensures writes { Writes (W.contents writer.old) (W.contents writer.new) result
        (line_text address (front.now ++ back.now)) }
{
    write_line(
        writer,
        &[
            Piece::Address(address),
            Piece::Text(b" "),
            Piece::Cells(Cell::Behind(b' '), front),
            Piece::Cells(Cell::Behind(b' '), back),
            Piece::Text(&NO_OCTETS[CELL_ROOM * (front.len() + back.len())..]),
            Piece::Text(b"  "),
            Piece::Cells(Cell::Character, front),
            Piece::Cells(Cell::Character, back),
            Piece::Text(b"\n"),
        ],
    )
}
