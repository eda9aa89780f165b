//! One line at a time from a reader.
ghost use Rattle.std.specs.Prelude.{◌≡◌, ◌<◌, ◌≤◌, IfOk, OnOk, Ok, true, false, length, vec_len};
ghost use Rattle.std.specs.Io.KnownBytes.{IsAtEnd, Keeps};
ghost use Rattle.std.specs.Io.BufRead.{strip_last};
ghost use Rattle.std.specs.List.{position_or_len};
ghost use Rattle.em_text.specs.Lines.{is_newline};
ghost use Rattle.em_console.specs.Reading.{TakesLine, TakesAtHand, most_kept};

use crate::fault::ConsoleFault;
use memchr::memchr_iter;
use std::io::BufRead;

/// The longest line, in octets without its end.
pub const MOST_LINE: usize = 65_536;

/// How many octets are kept of a longer one: without the last of them, a carriage return, it is still too long.
const MOST_KEPT: usize = MOST_LINE + 2;

/// What ends a line.
const NEWLINE: u8 = b'\n';

/// What may stand before that.
const CARRIAGE_RETURN: u8 = b'\r';

/// What a reader had at hand of a line.
#[derive(Clone, Copy)]
enum AtHand {
    /// A part of it, an octet or more; the reader has to be asked again.
    Part,
    /// Its last part, and the newline.
    Last,
    /// Nothing: the reader is at its end.
    Nothing,
}

/// Reads a line, and nothing behind it: false where the reader is at its end.
///
/// The line is without its newline, and without a carriage return before that. What follows the last newline is a
/// line too, unless it is empty. Of a line that is too long a front is kept, which is too long as well. Where it fails,
/// how far the reader was read is left open.
pub(crate) fn read_line<R: BufRead>(
    reader: &mut R,
    line: &mut Vec<u8>,
) -> Result<bool, ConsoleFault>
    ensures line { result ≡ Ok true → TakesLine (R.remaining reader.old) (R.remaining reader.new) line.new.items }
    ensures end { result ≡ Ok false →
        IsAtEnd (R.remaining reader.old) × Keeps (R.remaining reader.old) (R.remaining reader.new) }
    ensures short { OnOk result (vec_len line.new ≤ most_kept) }
{
    line.clear();
    for reads in 0..u64::MAX {
        match take_at_hand(reader, line)? {
            AtHand::Part => {}
            AtHand::Last => {
                strip_return(line);
                return Ok(true);
            }
            AtHand::Nothing => return at_the_end(line),
        }
    }
    // No line is read in so many parts.
    Err(ConsoleFault::Read)
}

/// What a reader gave that is at its end: a last line without a newline, or none.
fn at_the_end(line: &Vec<u8>) -> Result<bool, ConsoleFault>
    ensures some { result ≡ Ok true → 0 < length line.now.items }
    ensures none { result ≡ Ok false → length line.now.items ≡ 0 }
{
    Ok(!line.is_empty())
}

/// Adds to a line what the reader has at hand of it, as far as there is room.
fn take_at_hand<R: BufRead>(reader: &mut R, line: &mut Vec<u8>) -> Result<AtHand, ConsoleFault>
    requires { vec_len line.old ≤ most_kept }
    ensures taken { IfOk result (λ at_hand. TakesAtHand (R.remaining reader.old) (R.remaining reader.new)
        line.old.items line.new.items at_hand) }
    ensures short { OnOk result (vec_len line.new ≤ most_kept) }
{
    let Ok(octets) = reader.fill_buf() else {
        return Err(ConsoleFault::Read);
    };
    if octets.is_empty() {
        return Ok(AtHand::Nothing);
    }
    let end = line_len(octets);
    let part = &octets[..end];
    let room = MOST_KEPT - line.len();
    if line
        .extend_from_slice(&part[..room.min(part.len())])
        .is_err()
    {
        return Err(ConsoleFault::Memory);
    }
    if end == octets.len() {
        reader.consume(end);
        return Ok(AtHand::Part);
    }
    reader.consume(end + 1);
    Ok(AtHand::Last)
}

/// How many octets stand before the first newline.
fn line_len(octets: &[u8]) -> usize
    ensures value { result ≡ position_or_len is_newline octets.now }
    ensures within { result ≤ length octets.now }
{
    match memchr_iter(NEWLINE, octets).next() {
        Some(end) => end,
        None => octets.len(),
    }
}

/// Takes a carriage return off the end of a line.
fn strip_return(line: &mut Vec<u8>)
    ensures { line.new.items ≡ strip_last 13 line.old.items }
{
    if line.last() == Some(&CARRIAGE_RETURN) {
        line.pop();
    }
}
