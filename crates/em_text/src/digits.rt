//! The values of digits, by a table: digits are most of a script, and their letters and numerals
//! are mixed too well for a branch to be foreseen.
ghost use Rattle.std.specs.Prelude.{◌≡◌, ◌+◌, ◌<◌, ◌≤◌, ◌/◌, ◌%◌, ℕ, [], ◌∷◌, length, map, min, slice_index};
ghost use Rattle.em_text.specs.Digits.{lane_digit};
ghost use Rattle.hex.specs.Hex.{upper_digits};
ghost use Rattle.std.specs.Char.{digit_value};

use std::simd::prelude::*;

/// How many octets a loop without branches takes at a time.
pub const LANES: usize = 16;

/// How many octets are still worth a loop without branches.
pub const HALF_LANES: usize = 8;

/// How many octets at least are worth it where each is written by two digits.
pub const QUARTER_LANES: usize = 4;

/// How many digits are numerals.
const NUMERALS: u8 = 10;

/// How many hexadecimal digits are letters.
const LETTERS: u8 = 6;

/// What a letter in upper case is past its value.
const PAST_VALUE: u8 = b'A' - NUMERALS;

/// How many bits the low digit of an octet has, and which they are.
const DIGIT_BITS: u8 = 4;

const LOW_DIGIT: u8 = 0x0F;

/// The bit that a letter has in lower case alone.
const LOWER: u8 = 0x20;

/// The value of each octet as a digit, letters in either case; 36 where it is none.
#[rattlefmt::skip]
static VALUES: [u8; 256] = [
    36, 36, 36, 36, 36, 36, 36, 36, 36, 36, 36, 36, 36, 36, 36, 36,
    36, 36, 36, 36, 36, 36, 36, 36, 36, 36, 36, 36, 36, 36, 36, 36,
    36, 36, 36, 36, 36, 36, 36, 36, 36, 36, 36, 36, 36, 36, 36, 36,
    0, 1, 2, 3, 4, 5, 6, 7, 8, 9, 36, 36, 36, 36, 36, 36,
    36, 10, 11, 12, 13, 14, 15, 16, 17, 18, 19, 20, 21, 22, 23, 24,
    25, 26, 27, 28, 29, 30, 31, 32, 33, 34, 35, 36, 36, 36, 36, 36,
    36, 10, 11, 12, 13, 14, 15, 16, 17, 18, 19, 20, 21, 22, 23, 24,
    25, 26, 27, 28, 29, 30, 31, 32, 33, 34, 35, 36, 36, 36, 36, 36,
    36, 36, 36, 36, 36, 36, 36, 36, 36, 36, 36, 36, 36, 36, 36, 36,
    36, 36, 36, 36, 36, 36, 36, 36, 36, 36, 36, 36, 36, 36, 36, 36,
    36, 36, 36, 36, 36, 36, 36, 36, 36, 36, 36, 36, 36, 36, 36, 36,
    36, 36, 36, 36, 36, 36, 36, 36, 36, 36, 36, 36, 36, 36, 36, 36,
    36, 36, 36, 36, 36, 36, 36, 36, 36, 36, 36, 36, 36, 36, 36, 36,
    36, 36, 36, 36, 36, 36, 36, 36, 36, 36, 36, 36, 36, 36, 36, 36,
    36, 36, 36, 36, 36, 36, 36, 36, 36, 36, 36, 36, 36, 36, 36, 36,
    36, 36, 36, 36, 36, 36, 36, 36, 36, 36, 36, 36, 36, 36, 36, 36,
];

/// The value of a digit or a letter, from 0 for `0` to 35 for `Z` and `z`; 36 for any other octet.
#[inline(always)]
pub fn value_of(octet: u8) -> u8
    ensures { result ≡ digit_value octet }
{
    VALUES[usize::from(octet)]
}

/// The values of `N` octets of a text as hexadecimal digits in either case; 16 for any other octet. By
/// comparisons of one vector in place of the table; two of them, since letters are put in lower case first.
#[inline(always)]
pub fn hex_values<const N: usize>(text: &[u8], from: usize) -> Simd<u8, N>
    requires { from + N ≤ length text.now }
    ensures { (i : ℕ) → i < N → slice_index result i ≡ min (digit_value (slice_index text.now (from + i))) 16 }
{
    let octets = Simd::<u8, N>::from_slice(&text[from..]);
    let numerals = octets - Simd::splat(b'0');
    let past_a = (octets | Simd::splat(LOWER)) - Simd::splat(b'a');
    let letters = past_a.simd_min(Simd::splat(LETTERS)) + Simd::splat(NUMERALS);
    numerals
        .simd_lt(Simd::splat(NUMERALS))
        .select(numerals, letters)
}

/// The hexadecimal digits in upper case of values below 16. By a comparison of one vector in place of the table.
#[inline(always)]
fn digit_lanes<const N: usize>(values: Simd<u8, N>) -> Simd<u8, N>
    ensures { result ≡ map lane_digit values.entry }
{
    let numerals = values + Simd::splat(b'0');
    let letters = values + Simd::splat(PAST_VALUE);
    values
        .simd_lt(Simd::splat(NUMERALS))
        .select(numerals, letters)
}

/// The hexadecimal digits in upper case of the high four bits of `N` octets.
#[inline(always)]
pub fn high_digits<const N: usize>(octets: &[u8], from: usize) -> Simd<u8, N>
    requires { from + N ≤ length octets.now }
    ensures { (i : ℕ) → i < N
        → slice_index result i ≡ slice_index upper_digits (slice_index octets.now (from + i) / 16) }
{
    let octets = Simd::<u8, N>::from_slice(&octets[from..]);
    digit_lanes(octets >> Simd::splat(DIGIT_BITS))
}

/// The digits of their low four bits.
#[inline(always)]
pub fn low_digits<const N: usize>(octets: &[u8], from: usize) -> Simd<u8, N>
    requires { from + N ≤ length octets.now }
    ensures { (i : ℕ) → i < N
        → slice_index result i ≡ slice_index upper_digits (slice_index octets.now (from + i) % 16) }
{
    let octets = Simd::<u8, N>::from_slice(&octets[from..]);
    digit_lanes(octets & Simd::splat(LOW_DIGIT))
}

/// The two digits of each octet in upper case, one octet after another.
#[rattlefmt::skip]
static PAIRS: [u8; 512] = *b"\
    000102030405060708090A0B0C0D0E0F\
    101112131415161718191A1B1C1D1E1F\
    202122232425262728292A2B2C2D2E2F\
    303132333435363738393A3B3C3D3E3F\
    404142434445464748494A4B4C4D4E4F\
    505152535455565758595A5B5C5D5E5F\
    606162636465666768696A6B6C6D6E6F\
    707172737475767778797A7B7C7D7E7F\
    808182838485868788898A8B8C8D8E8F\
    909192939495969798999A9B9C9D9E9F\
    A0A1A2A3A4A5A6A7A8A9AAABACADAEAF\
    B0B1B2B3B4B5B6B7B8B9BABBBCBDBEBF\
    C0C1C2C3C4C5C6C7C8C9CACBCCCDCECF\
    D0D1D2D3D4D5D6D7D8D9DADBDCDDDEDF\
    E0E1E2E3E4E5E6E7E8E9EAEBECEDEEEF\
    F0F1F2F3F4F5F6F7F8F9FAFBFCFDFEFF";

/// The two hexadecimal digits of an octet in upper case, by a table, so that they are one look-up.
#[inline(always)]
pub fn digit_pair(octet: u8) -> [u8; 2]
    ensures { result ≡ slice_index upper_digits (octet / 16) ∷ slice_index upper_digits (octet % 16) ∷ [] }
{
    let at = 2 * usize::from(octet);
    [PAIRS[at], PAIRS[at + 1]]
}
