//! Numbers as programs print them.
ghost use Rattle.std.specs.Prelude.{◌≡◌};
ghost use Rattle.em_log.specs.Number.{hex_in, number_in, is_hex};

use em_text::{Words, decimal_number};

/// The number that 1 to 16 hexadecimal digits behind `0x` write.
#[inline]
pub(crate) fn hex_in(word: &[u8]) -> Option<u64>
    ensures { result ≡ hex_in word.now }
{
    match word {
        [b'0', b'x' | b'X', digits @ ..] => Words(digits).hex_address(),
        _ => None,
    }
}

/// Whether a word begins with `0x`.
#[inline]
pub(crate) fn is_hex(word: &[u8]) -> bool
    ensures { result ≡ is_hex word.now }
{
    matches!(word, [b'0', b'x' | b'X', ..])
}

/// The number that 1 to 16 hexadecimal digits behind `0x` write, or 1 to 7 decimal digits.
#[inline]
pub(crate) fn number_in(word: &[u8]) -> Option<u64>
    ensures { result ≡ number_in word.now }
{
    if is_hex(word) {
        return hex_in(word);
    }
    match decimal_number(word) {
        Some(number) => Some(u64::from(number)),
        None => None,
    }
}
