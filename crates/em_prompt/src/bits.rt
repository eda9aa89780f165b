//! The bits of a register that a word names.
ghost use Rattle.std.specs.Prelude.{◌≡◌, ◌∷◌, [], ◌<◌, ◌≤◌, MatchOption, MatchResult, Ok, Err, length, find};
ghost use Rattle.std.specs.List.{slice_split, position_or_len};
ghost use Rattle.std.specs.Option.{option_map};
ghost use Rattle.em_prompt.specs.Bits.{is_bar, is_bit, is_called, bits_of};

use em_names::{Field, Form, fields};
use em_regs::Reg;

/// What stands between names of bits.
const BAR: u8 = b'|';

/// The bits whose names stand in a word with bars between them; or the first of these that names no bit.
pub(crate) fn bits_of(reg: Reg, word: &[u8]) -> Result<u32, &[u8]>
    ensures { MatchResult result (λ value. bits_of reg word.now ≡ Ok value) (λ name. bits_of reg word.now ≡ Err name.now) }
{
    let fields = fields(reg);
    let mut value = 0;
    let mut rest = word;
    loop {
        let (name, behind) = first_name(rest);
        match bit_among(fields, name) {
            Some(bit) => value |= bit,
            None => return Err(name),
        }
        match behind {
            Some(behind) => rest = behind,
            None => return Ok(value),
        }
    }
}

/// What stands before the first bar, and what behind it, if there is one.
fn first_name(text: &[u8]) -> (&[u8], Option<&[u8]>)
    ensures last { MatchOption result.1
        (slice_split is_bar text.now ≡ result.0.now ∷ [])
        (λ behind. slice_split is_bar text.now ≡ result.0.now ∷ slice_split is_bar behind.now) }
    ensures shorter { MatchOption result.1 (Unit {0}) (λ behind. length behind.now < length text.now) }
{
    let end = name_len(text);
    if end == text.len() {
        return (text, None);
    }
    (&text[..end], Some(&text[end + 1..]))
}

/// How many octets a text has before its first bar.
fn name_len(text: &[u8]) -> usize
    ensures value { result ≡ position_or_len is_bar text.now }
    ensures within { result ≤ length text.now }
{
    text.iter().take_while(|octet| !is_bar(**octet)).count()
}

fn is_bar(octet: u8) -> bool
    ensures { result ≡ is_bar octet }
{
    octet == BAR
}

/// The bit of this name.
fn bit_among(fields: &[Field], word: &[u8]) -> Option<u32>
    ensures { result ≡ option_map (λ field. field.mask) (find (λ field. is_called word.now field) fields.now) }
{
    match field_called(fields, word) {
        Some(field) => Some(field.mask),
        None => None,
    }
}

/// The field that is a bit of this name.
fn field_called(fields: &[Field], word: &[u8]) -> Option<Field>
    ensures { result ≡ find (λ field. is_called word.now field) fields.now }
{
    fields.iter().copied().find(|field| is_called(*field, word))
}

/// Whether a field is a bit of this name, in either case.
fn is_called(field: Field, word: &[u8]) -> bool
    ensures { result ≡ is_called word.now field }
{
    is_bit(field) && word.eq_ignore_ascii_case(field.name.as_bytes())
}

/// Whether a field is a bit.
fn is_bit(field: Field) -> bool
    ensures { result ≡ is_bit field.form }
{
    matches!(field.form, Form::Bit)
}
