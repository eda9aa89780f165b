//! The bits and fields of the registers, of either profile: no machine is asked.
ghost use Rattle.std.specs.Prelude.{◌≡◌, ℕ, List, Result, Ok, Err, Some, IfOk, IfErr};
ghost use Rattle.std.specs.List.{slice_get};
ghost use Rattle.em_names.specs.Bits.{register_text, row_of_field, table_of};
ghost use Rattle.em_c.specs.Refused.{Shows, told};
ghost use Rattle.em_c.specs.Looks.{length_of, text_into};
ghost use Rattle.em_c.specs.Line.{IsTold};
ghost use Rattle.em_c.specs.Fields as the;

use crate::line::LINE;
use crate::refused::{Refused, number, tell};
use crate::room::lay_text;
use arrayvec::ArrayVec;
use em_names::{Field, fields, write_register};
use em_regs::{Profile, Reg};

/// How many octets a name has in a struct, with the zeros behind it: more than any bit's or field's.
const NAME: usize = 16;

/// A bit or a field of a register: it holds `(value & mask) / lowest`.
#[repr(C)]
#[derive(Clone, Copy)]
pub struct EmField {
    /// Its bits; 0 behind the last bit or field of a register.
    pub mask: u32,
    /// The lowest of them.
    pub lowest: u32,
    /// The manual's name, and zeros behind it.
    pub name: [u8; NAME],
}

/// What stands behind the last.
const BLANK: EmField = EmField {
    mask: 0,
    lowest: 0,
    name: [0; NAME],
};

/// A bit or a field of the register at an offset, from the lowest on, the first at 0.
#[unsafe(no_mangle)]
pub extern "C" fn em_field(offset: u32, k: usize, field: &mut EmField) -> u32
    ensures { (outcome : Result EmField Refused) × the.FieldAt offset k outcome
        × Shows outcome field.old result field.new }
{
    tell(field_at(offset, k), field)
}

/// The name of the register at an offset, a value in 8 hexadecimal digits, and the names of its bits and fields that
/// are set, with a zero octet behind it; how many octets it has is told also where there is no room for it.
#[unsafe(no_mangle)]
pub extern "C" fn em_value_text(offset: u32, value: u32, out: &mut [u8], octets: &mut usize) -> u32
    ensures { (outcome : Result (List ℕ) Refused) × the.ValueAt offset value outcome
        × Shows (text_into out.old outcome) out.old result out.new
        × (octets.new ≡ told octets.old (length_of outcome)) }
{
    match value_at(offset, value) {
        Ok(text) => number(lay_text(text.as_slice(), out, octets)),
        Err(refused) => refused.number(),
    }
}

/// A bit or a field of the register at an offset.
fn field_at(offset: u32, k: usize) -> Result<EmField, Refused>
    ensures { the.FieldAt offset k result }
{
    match Reg::of_offset_in(Profile::Adapter, offset) {
        Some(reg) => field_of(reg, k),
        None => Err(Refused::NoRegister),
    }
}

/// A bit or a field of a register.
fn field_of(reg: Reg, k: usize) -> Result<EmField, Refused>
    ensures { IsTold result (the.field_told (slice_get (table_of reg) k)) }
{
    match nth(fields(reg), k) {
        Some(field) => field_told(field),
        None => Ok(BLANK),
    }
}

/// One of some bits and fields.
fn nth(fields: &[Field], k: usize) -> Option<Field>
    ensures { result ≡ slice_get fields.now k }
{
    fields.get(k).copied()
}

/// A bit or a field, as C sees it.
fn field_told(field: Field) -> Result<EmField, Refused>
    ensures { IsTold result (the.field_told (Some (row_of_field field))) }
{
    let name = name_in(field.name.as_bytes())?;
    Ok(EmField {
        mask: field.mask,
        lowest: field.lowest,
        name,
    })
}

/// A name as it stands in a struct; one that leaves no zero behind it has no room.
fn name_in(name: &[u8]) -> Result<[u8; NAME], Refused>
    ensures { IsTold result (the.name_in name.now) }
{
    if name.len() >= NAME {
        return Err(Refused::Room);
    }
    let mut room = [0u8; NAME];
    room[..name.len()].copy_from_slice(name);
    Ok(room)
}

/// The value of the register at an offset in words.
fn value_at(offset: u32, value: u32) -> Result<ArrayVec<u8, LINE>, Refused>
    ensures ok { IfOk result (λ text. the.ValueAt offset value (Ok text.items)) }
    ensures err { IfErr result (λ refused. the.ValueAt offset value (Err refused)) }
{
    let Some(reg) = Reg::of_offset_in(Profile::Adapter, offset) else {
        return Err(Refused::NoRegister);
    };
    value_of(reg, value)
}

/// The value of a register in words.
fn value_of(reg: Reg, value: u32) -> Result<ArrayVec<u8, LINE>, Refused>
    ensures ok { IfOk result (λ text. text.items ≡ register_text reg value) }
    ensures err { IfErr result (λ refused. refused ≡ Refused.Room) }
{
    let mut text = ArrayVec::new();
    match write_register(&mut text, reg, value) {
        Ok(()) => Ok(text),
        Err(_) => Err(Refused::Room),
    }
}
