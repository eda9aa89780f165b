//! How an answer differs from the one that was expected.
ghost use Rattle.std.specs.Prelude.{◌≡◌, ◌<◌, length};
ghost use Rattle.std.specs.List.{flat_map};
ghost use Rattle.std.specs.Option.{option_map};
ghost use Rattle.em_step.specs.Event.{plain};
ghost use Rattle.em_text.specs.Writer.{Writes};
ghost use Rattle.em_names.specs.Bits.{four_digits, row_of_field};
ghost use Rattle.em_expect.specs.Agreement.{first_line};
ghost use Rattle.em_expect.specs.Difference.{difference_text, field_text, fields_text, holds_text};
ghost use Rattle.em_expect.specs.Difference.{register_of, value_in, wanted_digit, wanted_digits};
ghost use Rattle.em_expect.specs.Difference.{wanted_value};

use crate::agreement::{DASH, DIGITS, eight_digits, first_line};
use em_names::{Field, Form, fields, number_in, write_low};
use em_regs::{Profile, Reg};
use em_step::Event;
use em_text::{WriteFailed, write_pieces, write_whole};
use hex::FromHex;
use std::io::Write;

/// Writes how an answer differs from the expected one: `differs: 00000004 wanted, LSC is clear` and a newline.
///
/// Only the first line of the answer counts. Where the event reads a register, the answer is its value, and a number is
/// expected, each bit and each field of the register comes that differs in a digit that matters, as the answer has it: a
/// field in 4 digits.
pub fn write_difference<W: Write>(
    writer: &mut W,
    event: Option<Event<'_>>,
    expected: &[u8],
    answer: &[u8],
) -> Result<(), WriteFailed>
    ensures writes { Writes (W.contents writer.old) (W.contents writer.new) result
        (difference_text (register_of (option_map plain event.entry)) expected.now answer.now) }
{
    write_of_register(writer, register_of(event), expected, answer)
}

/// Writes how an answer differs, where this register was read.
fn write_of_register<W: Write>(
    writer: &mut W,
    read: Option<Reg>,
    expected: &[u8],
    answer: &[u8],
) -> Result<(), WriteFailed>
    ensures writes { Writes (W.contents writer.old) (W.contents writer.new) result
        (difference_text read expected.now answer.now) }
{
    write_pieces(writer, &[b"differs: ", expected, b" wanted"])?;
    write_told(writer, read, expected, first_line(answer))?;
    write_whole(writer, b"\n")
}

/// Writes the bits and fields in which a register's value differs from the one that was expected.
fn write_told<W: Write>(
    writer: &mut W,
    read: Option<Reg>,
    expected: &[u8],
    there: &[u8],
) -> Result<(), WriteFailed>
    ensures writes { Writes (W.contents writer.old) (W.contents writer.new) result
        (fields_text read (wanted_value expected.now there.now) (value_in there.now)) }
{
    let Some(reg) = read else {
        return Ok(());
    };
    let Some(wanted) = wanted_value(expected, there) else {
        return Ok(());
    };
    let Some(value) = value_in(there) else {
        return Ok(());
    };
    write_fields(writer, fields(reg), wanted, value)
}

/// The register that an event reads, if it reads one that is there.
pub fn register_of(event: Option<Event<'_>>) -> Option<Reg>
    ensures { result ≡ register_of (option_map plain event.entry) }
{
    match event {
        Some(Event::Read(offset)) => Reg::of_offset_in(Profile::Adapter, offset),
        _ => None,
    }
}

/// The value that 8 hexadecimal digits write.
fn value_in(digits: &[u8]) -> Option<u32>
    ensures { result ≡ value_in digits.now }
{
    match <[u8; 4] as FromHex>::from_hex(digits) {
        Ok(octets) => Some(u32::from_be_bytes(octets)),
        Err(_) => None,
    }
}

/// The value that is wanted, where a number is expected: of a digit that does not matter, the one that is there.
fn wanted_value(expected: &[u8], there: &[u8]) -> Option<u32>
    ensures { result ≡ wanted_value expected.now there.now }
{
    if there.len() != DIGITS {
        return None;
    }
    match eight_digits(expected) {
        Some(digits) => value_in(&wanted_digits(&digits, there)),
        None => None,
    }
}

/// The digits of that value.
fn wanted_digits(expected: &[u8], there: &[u8]) -> [u8; DIGITS]
    requires expected { length expected.now ≡ 8 }
    requires there { length there.now ≡ 8 }
    ensures { result ≡ wanted_digits expected.now there.now }
{
    [
        wanted_digit(expected, there, 0),
        wanted_digit(expected, there, 1),
        wanted_digit(expected, there, 2),
        wanted_digit(expected, there, 3),
        wanted_digit(expected, there, 4),
        wanted_digit(expected, there, 5),
        wanted_digit(expected, there, 6),
        wanted_digit(expected, there, 7),
    ]
}

/// The digit that is wanted at a place.
fn wanted_digit(expected: &[u8], there: &[u8], at: usize) -> u8
    requires expected { at < length expected.now }
    requires there { at < length there.now }
    ensures { result ≡ wanted_digit expected.now there.now at }
{
    if expected[at] == DASH {
        there[at]
    } else {
        expected[at]
    }
}

/// Writes those of a register's fields that differ.
fn write_fields<W: Write>(
    writer: &mut W,
    fields: &[Field],
    wanted: u32,
    value: u32,
) -> Result<(), WriteFailed>
    ensures writes { Writes (W.contents writer.old) (W.contents writer.new) result
        (flat_map (λ field. field_text wanted value (row_of_field field)) fields.now) }
{
    for field in fields {
        write_field(writer, *field, wanted, value)?;
    }
    Ok(())
}

/// Writes a field and what it holds, if that is not what is wanted.
fn write_field<W: Write>(
    writer: &mut W,
    field: Field,
    wanted: u32,
    value: u32,
) -> Result<(), WriteFailed>
    ensures writes { Writes (W.contents writer.old) (W.contents writer.new) result
        (field_text wanted value (row_of_field field)) }
{
    let number = number_in(field, value);
    if number == number_in(field, wanted) {
        return Ok(());
    }
    let name = field.name.as_bytes();
    match field.form {
        Form::Bit if number == 0 => write_pieces(writer, &[b", ", name, b" is clear"]),
        Form::Bit => write_pieces(writer, &[b", ", name, b" is set"]),
        Form::Number | Form::Digits | Form::Speed | Form::Size => {
            write_number(writer, name, number)
        }
    }
}

/// Writes a field's name and the low 16 bits of what it holds: no field has more.
fn write_number<W: Write>(writer: &mut W, name: &[u8], number: u32) -> Result<(), WriteFailed>
    ensures writes { Writes (W.contents writer.old) (W.contents writer.new) result
        (holds_text name.now (four_digits number)) }
{
    write_pieces(writer, &[b", ", name, b" is "])?;
    write_low(writer, number)
}
