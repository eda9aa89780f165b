//! The bit of a hash in the MTA, and of an identifier in the VFTA.
ghost use Rattle.std.specs.Prelude.{◌≡◌, ◌<◌, ◌^◌};
ghost use Rattle.em_reasons.specs.Bits.{bit_of, word_of};

/// How many words each of the tables has.
const WORDS: u16 = 128;

/// How many bits a word has.
const WORD_BITS: u16 = 32;

/// The word that has the bit of a number.
pub(crate) fn word_of(number: u16) -> u8
    ensures word { result ≡ word_of number }
    ensures few { result < WORDS }
{
    (number / WORD_BITS % WORDS) as u8
}

/// Which of its bits that is.
pub(crate) fn bit_of(number: u16) -> u8
    ensures bit { result ≡ bit_of number }
    ensures few { result < WORD_BITS }
{
    (number % WORD_BITS) as u8
}

/// That bit alone.
pub(crate) fn mask_of(number: u16) -> u32
    ensures { result ≡ 2 ^ bit_of number }
{
    1 << bit_of(number)
}
