//! Texts to a writer, by calls of its `write` alone.
ghost use Rattle.std.specs.Prelude.{◌≡◌, ◌+◌, ◌*◌, ◌^◌, ◌<◌, ◌≤◌, length, drop, [], ◌∷◌, ◌++◌};
ghost use Rattle.std.specs.List.{flat_map};
ghost use Rattle.em_text.specs.Writer.{Writes, hex_text, hex_line_text, value_digits, value_text, register_line_text};
ghost use Rattle.em_text.specs.Writer.{decimal_line_text, numbers_text, AreDigits};

use crate::digits::{HALF_LANES, LANES, QUARTER_LANES, digit_pair, high_digits, low_digits};
use itoa::write_digits;
use std::io::Write;

/// How many octets are written as digits at once.
const CHUNK_OCTETS: usize = 256;

/// Two digits for each of those.
const CHUNK_DIGITS: usize = 512;

/// The most octets of a line that is written at once.
const LINE_OCTETS: usize = 64;

/// Two digits for each of those, and a newline.
const LINE_TEXT: usize = 129;

/// Room for a line of two numbers of up to 20 digits each, with a space between them, and up to 16 octets on
/// either side.
const NUMBERS_LINE: usize = 80;

/// The digits of a 32-bit value.
const VALUE_DIGITS: usize = 8;

/// How many of them are 0 where the value is below 2^20.
const HIGH_DIGITS: usize = 3;

/// A writer failed, or took no octet.
#[derive(Clone, Copy, Debug, PartialEq, Eq)]
pub struct WriteFailed;

/// Writes the text whole. A write that takes no octet is a fault.
#[inline(always)]
pub fn write_whole<W: Write>(writer: &mut W, text: &[u8]) -> Result<(), WriteFailed>
    ensures writes { Writes (W.contents writer.old) (W.contents writer.new) result text.now }
{
    if text.is_empty() {
        return Ok(());
    }
    match writer.write(text) {
        // all at once, as a buffer with room takes it
        Ok(count) if count == text.len() => Ok(()),
        Ok(count) if count > 0 => write_in_parts(writer, &text[count..]),
        _ => Err(WriteFailed),
    }
}

/// Writes the text whole, by as many writes as it takes.
#[inline(never)]
fn write_in_parts<W: Write>(writer: &mut W, text: &[u8]) -> Result<(), WriteFailed>
    ensures writes { Writes (W.contents writer.old) (W.contents writer.new) result text.now }
{
    let mut done = 0;
    while done < text.len() {
        match writer.write(&text[done..]) {
            Ok(0) => return Err(WriteFailed),
            Ok(count) => done += count,
            Err(_) => return Err(WriteFailed),
        }
    }
    Ok(())
}

/// Writes pieces of a text, one after another.
pub fn write_pieces<W: Write>(writer: &mut W, pieces: &[&[u8]]) -> Result<(), WriteFailed>
    ensures writes { Writes (W.contents writer.old) (W.contents writer.new) result
        (flat_map (λ piece. piece.now) pieces.now) }
{
    for piece in pieces {
        write_whole(writer, *piece)?;
    }
    Ok(())
}

/// Writes octets as hexadecimal digits in upper case, two for each.
#[inline(never)]
pub fn write_octets<W: Write>(writer: &mut W, octets: &[u8]) -> Result<(), WriteFailed>
    ensures writes { Writes (W.contents writer.old) (W.contents writer.new) result (hex_text octets.now) }
{
    let mut digits = [0u8; CHUNK_DIGITS];
    let mut rest = octets;
    while !rest.is_empty() {
        let (chunk, behind) = rest.split_at(rest.len().min(CHUNK_OCTETS));
        let text = &mut digits[..2 * chunk.len()];
        fill_digits(chunk, text);
        write_whole(writer, text)?;
        rest = behind;
    }
    Ok(())
}

/// Writes octets as hexadecimal digits in upper case, and a newline.
pub fn write_octets_line<W: Write>(writer: &mut W, octets: &[u8]) -> Result<(), WriteFailed>
    ensures writes { Writes (W.contents writer.old) (W.contents writer.new) result (hex_line_text octets.now) }
{
    if octets.len() <= LINE_OCTETS {
        return write_short_line(writer, octets);
    }
    write_octets(writer, octets)?;
    write_whole(writer, b"\n")
}

/// Writes a line of few octets at once.
#[inline(always)]
fn write_short_line<W: Write>(writer: &mut W, octets: &[u8]) -> Result<(), WriteFailed>
    requires { length octets.now ≤ 64 }
    ensures writes { Writes (W.contents writer.old) (W.contents writer.new) result (hex_line_text octets.now) }
{
    let mut line = [b'\n'; LINE_TEXT];
    let end = 2 * octets.len();
    fill_digits(octets, &mut line[..end]);
    write_whole(writer, &line[..end + 1])
}

/// Writes a value in 8 hexadecimal digits in upper case, and a newline.
#[inline(never)]
pub fn write_value<W: Write>(writer: &mut W, value: u32) -> Result<(), WriteFailed>
    ensures writes { Writes (W.contents writer.old) (W.contents writer.new) result (value_text value) }
{
    let mut text = [b'\n'; VALUE_DIGITS + 1];
    fill_digits(&value.to_be_bytes(), &mut text[..VALUE_DIGITS]);
    write_whole(writer, &text)
}

/// Writes an offset below 2^20 in 5 hexadecimal digits, a space, a value in 8, and a newline.
pub fn write_register_line<W: Write>(
    writer: &mut W,
    offset: u32,
    value: u32,
) -> Result<(), WriteFailed>
    requires { offset < 2 ^ 20 }
    ensures writes { Writes (W.contents writer.old) (W.contents writer.new) result (register_line_text offset value) }
{
    let offset = digits_of(offset);
    let value = digits_of(value);
    write_pieces(writer, &[&offset[HIGH_DIGITS..], b" ", &value, b"\n"])
}

/// Writes words, a number in decimal digits, and a newline, all at once.
#[inline(never)]
#[tactic(auto, using(crate::proofs::WritingLemmas::digits_fit))]
pub fn write_number_line<W: Write>(
    writer: &mut W,
    words: &[u8],
    number: u64,
) -> Result<(), WriteFailed>
    requires { length words.now ≤ 16 }
    ensures writes { Writes (W.contents writer.old) (W.contents writer.new) result
        (words.now ++ decimal_line_text number) }
{
    let mut line = [b'\n'; NUMBERS_LINE];
    let number_at = write_digits(number, &mut line, NUMBERS_LINE - 1);
    let start = put_before(&mut line, number_at, words);
    write_whole(writer, &line[start..])
}

/// Writes a word, two numbers in decimal digits with a space between them, and an end, all at once.
#[inline(always)]
#[tactic(auto, using(crate::proofs::WritingLemmas::digits_fit))]
pub fn write_numbers_line<W: Write>(
    writer: &mut W,
    word: &[u8],
    first: u64,
    second: u64,
    end: &[u8],
) -> Result<(), WriteFailed>
    requires word { length word.now ≤ 16 }
    requires end { length end.now ≤ 16 }
    ensures writes { Writes (W.contents writer.old) (W.contents writer.new) result
        (numbers_text word.now first second end.now) }
{
    let mut line = [b'\n'; NUMBERS_LINE];
    let end_at = put_before(&mut line, NUMBERS_LINE, end);
    let second_at = write_digits(second, &mut line, end_at);
    let space_at = put_before(&mut line, second_at, b" ");
    let first_at = write_digits(first, &mut line, space_at);
    let start = put_before(&mut line, first_at, word);
    write_whole(writer, &line[start..])
}

/// Puts a text before what stands in a line from `end` on, and tells where it begins: a line with numbers
/// is made from its end, so that no number is measured.
#[inline(always)]
fn put_before(line: &mut [u8], end: usize, text: &[u8]) -> usize
    requires room { length text.now ≤ end }
    requires within { end ≤ length line.old }
    ensures start { result + length text.now ≡ end }
    ensures len { length line.new ≡ length line.old }
    ensures written { drop result line.new ≡ text.now ++ drop end line.old }
{
    let start = end - text.len();
    line[start..end].copy_from_slice(text);
    start
}

/// The two digits of an octet, in upper case.
#[inline]
pub fn octet_digits(octet: u8) -> [u8; 2]
    ensures { result ≡ hex_text (octet ∷ []) }
{
    let mut digits = [0; 2];
    fill_digits(&[octet], &mut digits);
    digits
}

/// The 8 digits of a value.
fn digits_of(value: u32) -> [u8; VALUE_DIGITS]
    ensures { result ≡ value_digits value }
{
    let mut digits = [0; VALUE_DIGITS];
    fill_digits(&value.to_be_bytes(), &mut digits);
    digits
}

/// Two digits for each octet, the high four bits first.
#[inline]
fn fill_digits(octets: &[u8], digits: &mut [u8])
    requires { length digits.old ≡ 2 * length octets.now }
    ensures { digits.new ≡ hex_text octets.now }
{
    let mut done = 0;
    while octets.len() - done >= LANES {
        fill_lanes::<LANES>(octets, digits, done);
        done += LANES;
    }
    if octets.len() - done >= HALF_LANES {
        fill_lanes::<HALF_LANES>(octets, digits, done);
        done += HALF_LANES;
    }
    if octets.len() - done >= QUARTER_LANES {
        fill_lanes::<QUARTER_LANES>(octets, digits, done);
        done += QUARTER_LANES;
    }
    for i in done..octets.len() {
        let [high, low] = digit_pair(octets[i]);
        digits[2 * i] = high;
        digits[2 * i + 1] = low;
    }
}

/// The digits of `N` octets from `done` on, which are taken as one vector.
#[inline(always)]
fn fill_lanes<const N: usize>(octets: &[u8], digits: &mut [u8], done: usize)
    requires room { done + N ≤ length octets.now }
    requires few { N ≤ 64 }
    requires digits { length digits.old ≡ 2 * length octets.now }
    requires before { AreDigits octets.now digits.old done }
    ensures len { length digits.new ≡ length digits.old }
    ensures after { AreDigits octets.now digits.new (done + N) }
{
    let high = high_digits::<N>(octets, done).to_array();
    let low = low_digits::<N>(octets, done).to_array();
    for i in 0..N {
        digits[2 * (done + i)] = high[i];
        digits[2 * (done + i) + 1] = low[i];
    }
}
