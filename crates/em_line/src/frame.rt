//! The octets of a frame, or of a packet, that words write.
ghost use Rattle.std.specs.Prelude.{◌≡◌, ◌≤◌, ◌↔◌, if◌then◌else◌, Some, None, IfOk, OnErr, IsSome, IsTrue};
ghost use Rattle.std.specs.Prelude.{◌/◌, ◌<◌, ◌⊎◌, false, length, option_and_then};
ghost use Rattle.em_text.specs.Numbers.{octets_of};
ghost use Rattle.em_text.specs.Words.{words_of};
ghost use Rattle.em_line.specs.Arguments.{plain, arguments_of};
ghost use Rattle.em_line.specs.Frame.{data_of, frame_of, lengthened_data, lengthened};

use crate::arguments::{Arguments, arguments_of};
use em_text::{Words, decimal_number, is_octets, octets_into};
use std::alloc::AllocError;

/// The most octets that LEN asks for.
const MOST_LEN: usize = 32_768;

/// How many digits write an octet.
const DIGITS_OF_OCTET: usize = 2;

/// Whether DATA, or DATA and LEN, are the words that are still to come, and if so, leaves their octets
/// in `data_buffer`: those of DATA and, with LEN, zero octets behind them up to LEN octets.
///
/// LEN is at most 32,768, and not below DATA's octets. The words are read one after another where they
/// stand; that memory was refused is answered only for octets that stand there.
#[inline(never)]
pub fn frame_words_into(data_buffer: &mut Vec<u8>, words: Words<'_>) -> Result<bool, AllocError>
    ensures value { IfOk result (λ found.
        frame_of (arguments_of (words_of words.entry.0.now)) ≡ (if found then Some data_buffer.new.items else None)) }
    ensures memory { OnErr result (IsSome (frame_of (arguments_of (words_of words.entry.0.now)))) }
{
    let mut rest = words;
    let Ok(found) = rest.octets_into(data_buffer) else {
        return refused_for(words);
    };
    if !found {
        return Ok(false);
    }
    if rest.is_over() {
        return Ok(true);
    }
    let Some(len) = rest.decimal_number() else {
        return Ok(false);
    };
    if !rest.is_over() {
        return Ok(false);
    }
    lengthen(data_buffer, len as usize)
}

/// Whether DATA is the one word that is still to come, and if so, leaves its octets in `data_buffer`. That
/// memory was refused is answered only for octets that stand there.
#[inline(always)]
pub fn data_words_into(data_buffer: &mut Vec<u8>, words: Words<'_>) -> Result<bool, AllocError>
    ensures value { IfOk result (λ found.
        data_of (arguments_of (words_of words.entry.0.now)) ≡ (if found then Some data_buffer.new.items else None)) }
    ensures memory { OnErr result (IsSome (data_of (arguments_of (words_of words.entry.0.now)))) }
{
    let mut rest = words;
    let Ok(found) = rest.octets_into(data_buffer) else {
        return refused_for_data(words);
    };
    Ok(found && rest.is_over())
}

/// Where memory was refused for DATA: what is no frame is so also then.
#[inline(never)]
fn refused_for(words: Words<'_>) -> Result<bool, AllocError>
    ensures value { IfOk result (λ found.
        (found ≡ false) × (frame_of (arguments_of (words_of words.entry.0.now)) ≡ None)) }
    ensures memory { OnErr result (IsSome (frame_of (arguments_of (words_of words.entry.0.now)))) }
{
    if is_frame(arguments_of(words)) {
        Err(AllocError)
    } else {
        Ok(false)
    }
}

/// Where memory was refused for the octets of DATA: words that are no DATA are none also then.
#[inline(never)]
fn refused_for_data(words: Words<'_>) -> Result<bool, AllocError>
    ensures value { IfOk result (λ found.
        (found ≡ false) × (data_of (arguments_of (words_of words.entry.0.now)) ≡ None)) }
    ensures memory { OnErr result (IsSome (data_of (arguments_of (words_of words.entry.0.now)))) }
{
    match arguments_of(words) {
        Arguments::One(digits) if is_octets(digits) => Err(AllocError),
        _ => Ok(false),
    }
}

/// DATA, or DATA and LEN, that stand apart.
pub fn frame_into(data_buffer: &mut Vec<u8>, arguments: Arguments<'_>) -> Result<bool, AllocError>
    ensures value { IfOk result (λ found.
        frame_of (plain arguments.entry) ≡ (if found then Some data_buffer.new.items else None)) }
{
    match arguments {
        Arguments::One(digits) => octets_into(data_buffer, digits),
        Arguments::Two(digits, len) => lengthened_data_into(data_buffer, digits, len),
        _ => Ok(false),
    }
}

/// Whether DATA and LEN stand there, and if so, leaves their octets in `data_buffer`.
fn lengthened_data_into(
    data_buffer: &mut Vec<u8>,
    digits: &[u8],
    len: &[u8],
) -> Result<bool, AllocError>
    ensures value { IfOk result (λ found.
        lengthened_data digits.now len.now ≡ (if found then Some data_buffer.new.items else None)) }
{
    let Some(len) = decimal_number(len) else {
        return Ok(false);
    };
    if !octets_into(data_buffer, digits)? {
        return Ok(false);
    }
    lengthen(data_buffer, len as usize)
}

/// Puts zero octets behind those of `data_buffer`, up to `len` octets, if there may be so many.
fn lengthen(data_buffer: &mut Vec<u8>, len: usize) -> Result<bool, AllocError>
    ensures value { IfOk result (λ found.
        lengthened len data_buffer.old.items ≡ (if found then Some data_buffer.new.items else None)) }
    ensures memory { OnErr result (IsSome (lengthened len data_buffer.old.items)) }
{
    if data_buffer.len() > len || len > MOST_LEN {
        return Ok(false);
    }
    data_buffer.resize(len, 0)?;
    Ok(true)
}

/// Whether DATA, or DATA and LEN, stand there. It takes no memory.
pub fn is_frame(arguments: Arguments<'_>) -> bool
    ensures { IsTrue result ↔ IsSome (frame_of (plain arguments.entry)) }
{
    match arguments {
        Arguments::One(digits) => is_octets(digits),
        Arguments::Two(digits, len) => match decimal_number(len) {
            Some(len) => is_lengthened(digits, len as usize),
            None => false,
        },
        _ => false,
    }
}

/// Whether DATA stands there and may have `len` octets.
fn is_lengthened(digits: &[u8], len: usize) -> bool
    ensures { IsTrue result ↔ IsSome (option_and_then (lengthened len) (octets_of digits.now)) }
{
    if !may_have(digits, len) {
        return false;
    }
    is_octets(digits)
}

/// Whether digits, if they write octets, may have zero octets behind them up to `len` octets.
fn may_have(digits: &[u8], len: usize) -> bool
    ensures may { IsTrue result → (len ≤ 32_768) × (length digits.now / 2 ≤ len) }
    ensures not { result ≡ false → (32_768 < len) ⊎ (len < length digits.now / 2) }
{
    len <= MOST_LEN && digits.len() / DIGITS_OF_OCTET <= len
}
