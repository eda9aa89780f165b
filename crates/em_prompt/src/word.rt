//! What a word writes.
ghost use Rattle.std.specs.Prelude.{◌≡◌, ◌↔◌, IsTrue, IsSome, length};
ghost use Rattle.em_text.specs.Numbers.{octets_of};
ghost use Rattle.em_prompt.specs.Word.{hex_number_in, hex_address_in, is_address, address_digits, data_digits};

use em_line::bare;
use em_text::{Words, is_octets};

/// How many octets an Ethernet address has with its colons.
const ADDRESS_LEN: usize = 17;

/// How many digits it has.
pub(crate) const ADDRESS_DIGITS: usize = 12;

const COLON: u8 = b':';

/// The number that 1 to 8 hexadecimal digits write, with `0x` before them or without.
pub(crate) fn hex_number_in(word: &[u8]) -> Option<u32>
    ensures { result ≡ hex_number_in word.now }
{
    Words(bare(word)).hex_number()
}

/// The same of an address, in 1 to 16 digits.
pub(crate) fn hex_address_in(word: &[u8]) -> Option<u64>
    ensures { result ≡ hex_address_in word.now }
{
    Words(bare(word)).hex_address()
}

/// Whether a word is an Ethernet address with colons between its octets, as far as its form goes.
pub(crate) fn is_address(word: &[u8]) -> bool
    ensures { result ≡ is_address word.now }
{
    word.len() == ADDRESS_LEN
        && (word[2] == COLON
            && (word[5] == COLON && (word[8] == COLON && (word[11] == COLON && word[14] == COLON))))
}

/// The digits of an Ethernet address without the colons.
pub(crate) fn address_digits(word: &[u8]) -> [u8; ADDRESS_DIGITS]
    requires { length word.now ≡ 17 }
    ensures { result ≡ address_digits word.now }
{
    [
        word[0], word[1], word[3], word[4], word[6], word[7], word[9], word[10], word[12],
        word[13], word[15], word[16],
    ]
}

/// How many digits DATA has.
pub(crate) fn data_len(word: &[u8]) -> usize
    ensures { result ≡ length (data_digits word.now) }
{
    if is_address(word) {
        ADDRESS_DIGITS
    } else {
        word.len()
    }
}

/// Whether DATA is octets.
pub(crate) fn is_data(word: &[u8]) -> bool
    ensures { IsTrue result ↔ IsSome (octets_of (data_digits word.now)) }
{
    if is_address(word) {
        is_octets(&address_digits(word))
    } else {
        is_octets(word)
    }
}
