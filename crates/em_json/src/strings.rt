//! Strings of JSON, of octets that may be any.
ghost use Rattle.std.specs.Prelude.{◌++◌, codes};
ghost use Rattle.std.specs.Str.Chunks.{utf8_chunk_invalid, utf8_chunk_valid};
ghost use Rattle.std.specs.Str.Lossy.{utf8_lossy};
ghost use Rattle.em_text.specs.Lines.{lines_of};
ghost use Rattle.em_text.specs.Writer.{Writes};
ghost use Rattle.em_json.specs.Strings.{chunk_text, escaped, joined, joined_behind, octet_text, string_text, strings_text};

use em_text::{WriteFailed, next_line, octet_digits, write_pieces, write_whole};
use std::io::Write;
use std::str::Utf8Chunk;

/// Octets below this one are written by their number.
const FIRST_PLAIN: u8 = 0x20;

/// U+FFFD, as UTF-8.
const REPLACEMENT: [u8; 3] = [0xEF, 0xBF, 0xBD];

/// Writes octets as a string of JSON, with the text that `String::from_utf8_lossy` makes of them: of octets that are no
/// UTF-8, U+FFFD for each piece that it takes as one.
///
/// `<` is always written by its number, so that the text can stand within a page's script.
pub fn write_string<W: Write>(writer: &mut W, octets: &[u8]) -> Result<(), WriteFailed>
    ensures writes { Writes (W.contents writer.old) (W.contents writer.new) result (string_text octets.now) }
{
    write_whole(writer, b"\"")?;
    write_lossy(writer, octets)?;
    write_whole(writer, b"\"")
}

/// Writes the lines of a text as a list of strings.
pub fn write_strings<W: Write>(writer: &mut W, text: &[u8]) -> Result<(), WriteFailed>
    ensures writes { Writes (W.contents writer.old) (W.contents writer.new) result (strings_text text.now) }
{
    write_whole(writer, b"[")?;
    write_joined(writer, text)?;
    write_whole(writer, b"]")
}

/// Writes the lines of a text as strings, with a comma between two.
fn write_joined<W: Write>(writer: &mut W, text: &[u8]) -> Result<(), WriteFailed>
    ensures writes { Writes (W.contents writer.old) (W.contents writer.new) result (joined (lines_of text.now)) }
{
    if text.is_empty() {
        return Ok(());
    }
    let (line, behind) = next_line(text);
    write_string(writer, line)?;
    write_joined_behind(writer, behind)
}

/// Writes the lines of a text as strings, each behind a comma.
fn write_joined_behind<W: Write>(writer: &mut W, text: &[u8]) -> Result<(), WriteFailed>
    ensures writes { Writes (W.contents writer.old) (W.contents writer.new) result
        (joined_behind (lines_of text.now)) }
{
    let mut rest = text;
    while !rest.is_empty() {
        let (line, behind) = next_line(rest);
        write_next(writer, line)?;
        rest = behind;
    }
    Ok(())
}

/// Writes a string behind a comma.
fn write_next<W: Write>(writer: &mut W, line: &[u8]) -> Result<(), WriteFailed>
    ensures writes { Writes (W.contents writer.old) (W.contents writer.new) result (codes "," ++ string_text line.now) }
{
    write_whole(writer, b",")?;
    write_string(writer, line)
}

/// Writes the text of octets, with those escaped that a string can't hold.
fn write_lossy<W: Write>(writer: &mut W, octets: &[u8]) -> Result<(), WriteFailed>
    ensures writes { Writes (W.contents writer.old) (W.contents writer.new) result (escaped (utf8_lossy octets.now)) }
{
    for chunk in octets.utf8_chunks() {
        write_chunk(writer, chunk)?;
    }
    Ok(())
}

/// Writes a run of text, and U+FFFD where octets come behind it that are no text.
fn write_chunk<W: Write>(writer: &mut W, chunk: Utf8Chunk<'_>) -> Result<(), WriteFailed>
    ensures writes { Writes (W.contents writer.old) (W.contents writer.new) result
        (chunk_text (utf8_chunk_valid chunk.entry) (utf8_chunk_invalid chunk.entry)) }
{
    write_escaped(writer, chunk.valid().as_bytes())?;
    if chunk.invalid().is_empty() {
        Ok(())
    } else {
        write_whole(writer, &REPLACEMENT)
    }
}

/// Writes octets of a text, with those escaped that a string can't hold.
fn write_escaped<W: Write>(writer: &mut W, text: &[u8]) -> Result<(), WriteFailed>
    ensures writes { Writes (W.contents writer.old) (W.contents writer.new) result (escaped text.now) }
{
    for octet in text {
        write_octet(writer, *octet)?;
    }
    Ok(())
}

/// Writes an octet of a text.
fn write_octet<W: Write>(writer: &mut W, octet: u8) -> Result<(), WriteFailed>
    ensures writes { Writes (W.contents writer.old) (W.contents writer.new) result (octet_text octet) }
{
    match octet {
        b'"' => write_whole(writer, b"\\\""),
        b'\\' => write_whole(writer, b"\\\\"),
        b'<' => write_whole(writer, b"\\u003c"),
        0..FIRST_PLAIN => write_pieces(writer, &[b"\\u00", &octet_digits(octet)]),
        _ => write_whole(writer, &[octet]),
    }
}
