//! The lines of steps back.
ghost use Rattle.std.specs.Prelude.{◌≡◌, ◌≤◌, ◌++◌};
ghost use Rattle.em_text.specs.Writer.{Writes};
ghost use Rattle.em_kept.specs.Source.{plain};
ghost use Rattle.em_kept.specs.Kept.{back_line, back_text, rest_line, rest_text, text_of, whole_text};

use crate::answer::write_numbers;
use crate::source::{Source, write_end};
use em_text::WriteFailed;
use std::io::Write;

/// The most steps back that one line takes.
const MOST_BACK: u64 = 65_536;

/// Writes the lines of steps back, of which so many were asked for and so many taken: one for each 65,536 that were
/// taken, and one for the rest. It takes fewer than it asks for where nothing was left to take back.
pub fn write_back<W: Write>(
    writer: &mut W,
    asked: u64,
    taken: u64,
    source: Source<'_>,
) -> Result<(), WriteFailed>
    requires within { taken ≤ asked }
    ensures writes { Writes (W.contents writer.old) (W.contents writer.new) result
        (back_text asked taken (plain source.entry)) }
{
    let whole = taken / MOST_BACK;
    write_whole_lines(writer, whole, source)?;
    write_rest(writer, asked - whole * MOST_BACK, taken % MOST_BACK, source)
}

/// Writes so many lines of as many steps back as one takes.
fn write_whole_lines<W: Write>(
    writer: &mut W,
    count: u64,
    source: Source<'_>,
) -> Result<(), WriteFailed>
    ensures writes { Writes (W.contents writer.old) (W.contents writer.new) result
        (whole_text count (plain source.entry)) }
{
    for _done in 0..count {
        write_back_line(writer, MOST_BACK, MOST_BACK, source)?;
    }
    Ok(())
}

/// Writes the line of the rest, where more were asked for.
fn write_rest<W: Write>(
    writer: &mut W,
    left: u64,
    taken: u64,
    source: Source<'_>,
) -> Result<(), WriteFailed>
    ensures writes { Writes (W.contents writer.old) (W.contents writer.new) result
        (rest_text left taken (plain source.entry)) }
{
    if left == 0 {
        return Ok(());
    }
    write_rest_line(writer, left, taken, source)
}

/// Writes the line of the rest: it asks for all that is left, or for as many as one line takes.
fn write_rest_line<W: Write>(
    writer: &mut W,
    left: u64,
    taken: u64,
    source: Source<'_>,
) -> Result<(), WriteFailed>
    ensures writes { Writes (W.contents writer.old) (W.contents writer.new) result
        (text_of (rest_line left taken (plain source.entry))) }
{
    write_back_line(writer, left.min(MOST_BACK), taken, source)
}

/// Writes the line of at most so many steps back as one takes.
fn write_back_line<W: Write>(
    writer: &mut W,
    asked: u64,
    taken: u64,
    source: Source<'_>,
) -> Result<(), WriteFailed>
    ensures writes { Writes (W.contents writer.old) (W.contents writer.new) result
        (text_of (back_line asked taken (plain source.entry))) }
{
    write_numbers(writer, b"back ", asked, b" =back ", taken)?;
    write_end(writer, source)
}
