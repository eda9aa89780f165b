//! Numbers, words and octets of JSON.
ghost use Rattle.em_text.specs.Writer.{Writes};
ghost use Rattle.em_json.specs.Text.{flag_text, number_text, numbers_text, octets_text};

use em_text::{WriteFailed, write_octets, write_pieces, write_whole};
use itoa::Buffer;
use std::io::Write;

/// Writes a number in decimal digits behind a text.
pub fn write_number<W: Write>(writer: &mut W, before: &[u8], number: u64) -> Result<(), WriteFailed>
    ensures writes { Writes (W.contents writer.old) (W.contents writer.new) result (number_text before.now number) }
{
    let mut digits = Buffer::new();
    write_pieces(writer, &[before, digits.format(number).as_bytes()])
}

/// Writes two numbers behind a text, and the end of their list.
pub fn write_numbers<W: Write>(
    writer: &mut W,
    before: &[u8],
    first: u64,
    second: u64,
) -> Result<(), WriteFailed>
    ensures writes { Writes (W.contents writer.old) (W.contents writer.new) result
        (numbers_text before.now first second) }
{
    let mut one = Buffer::new();
    let mut other = Buffer::new();
    let (first, second) = (one.format(first), other.format(second));
    write_pieces(
        writer,
        &[before, first.as_bytes(), b",", second.as_bytes(), b"]"],
    )
}

/// Writes `true` or `false` behind a text.
pub fn write_flag<W: Write>(writer: &mut W, before: &[u8], flag: bool) -> Result<(), WriteFailed>
    ensures writes { Writes (W.contents writer.old) (W.contents writer.new) result (flag_text before.now flag) }
{
    let word: &[u8] = if flag { b"true" } else { b"false" };
    write_pieces(writer, &[before, word])
}

/// Writes octets as a string of hexadecimal digits behind a text.
pub fn write_hex<W: Write>(writer: &mut W, before: &[u8], octets: &[u8]) -> Result<(), WriteFailed>
    ensures writes { Writes (W.contents writer.old) (W.contents writer.new) result (octets_text before.now octets.now) }
{
    write_pieces(writer, &[before, b"\""])?;
    write_octets(writer, octets)?;
    write_whole(writer, b"\"")
}
