//! A register's value in words.
ghost use Rattle.std.specs.Prelude.{◌≡◌, ◌-◌, fold, bit_and, decimal};
ghost use Rattle.std.specs.List.{flat_map};
ghost use Rattle.em_text.specs.Writer.{Writes, value_digits};
ghost use Rattle.em_names.specs.Names.{name_of};
ghost use Rattle.em_names.specs.Bits.{row_of_field, number_in, row_text, with_value, four_digits};
ghost use Rattle.em_names.specs.Bits.{rest_text, bits_text, register_text};

use crate::bits::fields;
use crate::field::{Field, Form};
use crate::names::name;
use em_regs::{Reg, buffer_size};
use em_text::{WriteFailed, write_octets, write_pieces, write_whole};
use itoa::Buffer;
use std::io::Write;

/// The speeds in Mb/s, by SPEED or ASDV.
const SPEEDS: [u32; 4] = [10, 100, 1000, 1000];

/// Writes a register's name, its value in 8 hexadecimal digits, and its bits and fields:
/// `ICR 00000004 LSC`.
pub fn write_register<W: Write>(writer: &mut W, reg: Reg, value: u32) -> Result<(), WriteFailed>
    ensures writes { Writes (W.contents writer.old) (W.contents writer.new) result (register_text reg value) }
{
    write_name(writer, reg)?;
    write_whole(writer, b" ")?;
    write_value(writer, value)?;
    write_bits(writer, reg, value)
}

/// Writes a register's name: `MTA[5]`.
pub fn write_name<W: Write>(writer: &mut W, reg: Reg) -> Result<(), WriteFailed>
    ensures writes { Writes (W.contents writer.old) (W.contents writer.new) result (name_of reg) }
{
    write_whole(writer, name(reg).as_str().as_bytes())
}

/// Writes the bits and fields of a register that holds a value, each behind a space: ` EN BAM BSIZE=2048`.
/// Bits that have no name come behind them, in 8 hexadecimal digits. Of a register without a table it writes
/// nothing.
pub fn write_bits<W: Write>(writer: &mut W, reg: Reg, value: u32) -> Result<(), WriteFailed>
    ensures writes { Writes (W.contents writer.old) (W.contents writer.new) result (bits_text reg value) }
{
    let fields = fields(reg);
    if fields.is_empty() {
        return Ok(());
    }
    write_fields(writer, fields, value)?;
    write_rest(writer, unnamed(fields, value))
}

/// Writes fields of a register that holds a value.
fn write_fields<W: Write>(writer: &mut W, fields: &[Field], value: u32) -> Result<(), WriteFailed>
    ensures writes { Writes (W.contents writer.old) (W.contents writer.new) result
        (flat_map (λ field. row_text value (row_of_field field)) fields.now) }
{
    for field in fields {
        write_field(writer, *field, value)?;
    }
    Ok(())
}

/// Writes a field of a register that holds a value, behind a space: a bit that is set by its name alone, and of a field
/// that is not 0 also what it holds, ` SPEED=1000`. BSIZE comes with the buffer's size in octets, also where it is 0.
pub fn write_field<W: Write>(writer: &mut W, field: Field, value: u32) -> Result<(), WriteFailed>
    ensures writes { Writes (W.contents writer.old) (W.contents writer.new) result
        (row_text value (row_of_field field)) }
{
    let number = number_in(field, value);
    match field.form {
        Form::Size => write_decimal(writer, field, buffer_size(value)),
        _ if number == 0 => Ok(()),
        Form::Bit => write_pieces(writer, &[b" ", field.name.as_bytes()]),
        Form::Number => write_decimal(writer, field, number),
        Form::Digits => write_digits(writer, field, number),
        Form::Speed => write_decimal(writer, field, SPEEDS[(number % 4) as usize]),
    }
}

/// What a field of a register holds: the field's bits as one number.
pub fn number_in(field: Field, value: u32) -> u32
    ensures { result ≡ number_in value (row_of_field field) }
{
    // no field is without bits
    if field.lowest == 0 {
        return 0;
    }
    (value & field.mask) / field.lowest
}

/// Writes a field's name and a number in decimal digits.
fn write_decimal<W: Write>(writer: &mut W, field: Field, number: u32) -> Result<(), WriteFailed>
    ensures writes { Writes (W.contents writer.old) (W.contents writer.new) result
        (with_value (row_of_field field) (decimal number)) }
{
    let mut digits = Buffer::new();
    write_pieces(
        writer,
        &[
            b" ",
            field.name.as_bytes(),
            b"=",
            digits.format(number).as_bytes(),
        ],
    )
}

/// Writes a field's name and the low 16 bits of a number in 4 hexadecimal digits.
fn write_digits<W: Write>(writer: &mut W, field: Field, number: u32) -> Result<(), WriteFailed>
    ensures writes { Writes (W.contents writer.old) (W.contents writer.new) result
        (with_value (row_of_field field) (four_digits number)) }
{
    write_pieces(writer, &[b" ", field.name.as_bytes(), b"="])?;
    write_low(writer, number)
}

/// Writes the low 16 bits of a number in 4 hexadecimal digits.
pub fn write_low<W: Write>(writer: &mut W, number: u32) -> Result<(), WriteFailed>
    ensures writes { Writes (W.contents writer.old) (W.contents writer.new) result (four_digits number) }
{
    let low = (number % 0x1_0000) as u16;
    write_octets(writer, &low.to_be_bytes())
}

/// Writes a value in 8 hexadecimal digits.
fn write_value<W: Write>(writer: &mut W, value: u32) -> Result<(), WriteFailed>
    ensures writes { Writes (W.contents writer.old) (W.contents writer.new) result (value_digits value) }
{
    write_octets(writer, &value.to_be_bytes())
}

/// The bits of a value that no field has.
fn unnamed(fields: &[Field], value: u32) -> u32
    ensures { result ≡ fold (λ rest field. bit_and rest (0xFFFF_FFFF - field.mask)) value fields.now }
{
    fields.iter().fold(value, |rest, field| rest & !field.mask)
}

/// Writes bits that have no name, behind a space, in 8 hexadecimal digits; nothing where there are none.
fn write_rest<W: Write>(writer: &mut W, rest: u32) -> Result<(), WriteFailed>
    ensures writes { Writes (W.contents writer.old) (W.contents writer.new) result (rest_text rest) }
{
    if rest == 0 {
        return Ok(());
    }
    write_whole(writer, b" ")?;
    write_value(writer, rest)
}
