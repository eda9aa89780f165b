//! Numbers as the words of a command line have them, and the head of a script.
ghost use Rattle.std.specs.Prelude.{◌≡◌, ◌<◌, ℕ, IfSome, IsSome, length};
ghost use Rattle.em_input.specs.Profiles.{profile_of};
ghost use Rattle.em_input.specs.Sizes.{IsNumber, IsSize, digits_in, last_of, unit_of};

use em_regs::Profile;
use em_text::{Words, is_name};

/// How many octets K, M and G stand for.
const KIB: u64 = 0x400;

const MIB: u64 = 0x10_0000;

const GIB: u64 = 0x4000_0000;

/// The octets that a word says in decimal digits, or in 1,024, 1,048,576 or 1,073,741,824 of them with K, M or G behind
/// the digits.
pub fn size_of(word: &[u8]) -> Option<u64>
    ensures size { IfSome result (IsSize word.now) }
    ensures all { (size : ℕ) → IsSize word.now size → IsSome result }
{
    if word.is_empty() {
        return None;
    }
    let unit = unit_of(word[word.len() - 1]);
    let number = number_of(digits_in(word, unit))?;
    number.checked_mul(unit)
}

/// The octets that a letter stands for which is K, M or G; one, where it is none of these.
fn unit_of(letter: u8) -> u64
    ensures { result ≡ unit_of letter }
{
    match letter {
        b'K' | b'k' => KIB,
        b'M' | b'm' => MIB,
        b'G' | b'g' => GIB,
        _ => 1,
    }
}

/// A word without the letter at its end, if that stands for so many octets, more than one.
fn digits_in(word: &[u8], unit: u64) -> &[u8]
    requires some { 0 < length word.now }
    requires unit { unit ≡ unit_of (last_of word.now) }
    ensures { result.now ≡ digits_in word.now }
{
    if unit == 1 {
        word
    } else {
        &word[..word.len() - 1]
    }
}

/// The number that a word writes in decimal digits, if it has 64 bits.
pub(crate) fn number_of(word: &[u8]) -> Option<u64>
    ensures number { IfSome result (IsNumber word.now) }
    ensures all { (number : ℕ) → IsNumber word.now number → IsSome result }
{
    let Ok(text) = str::from_utf8(word) else {
        return None;
    };
    match text.parse::<u64>() {
        Ok(number) => Some(number),
        Err(_) => None,
    }
}

/// The address that a word writes in 1 to 16 hexadecimal digits, with `0x` before them or without.
pub fn address_of(word: &[u8]) -> Option<u64> {
    let digits = match word {
        [b'0', b'x' | b'X', digits @ ..] => digits,
        digits => digits,
    };
    let mut words = Words(digits);
    let address = words.hex_address()?;
    if words.is_over() { Some(address) } else { None }
}

/// The profile that a word names.
pub fn profile_of(word: &[u8]) -> Option<Profile>
    ensures { result ≡ profile_of word.now }
{
    if is_name(word, b"table") {
        return Some(Profile::Table);
    }
    if is_name(word, b"adapter") {
        return Some(Profile::Adapter);
    }
    None
}
