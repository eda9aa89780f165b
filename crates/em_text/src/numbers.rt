//! The numbers and the octets that words write.
ghost use Rattle.std.specs.Prelude.{◌≡◌, ◌≢◌, ◌+◌, ◌*◌, ◌/◌, ◌≤◌, ◌<◌, ◌^◌, true, [], IfOk, OnErr, IfSome, IsSome};
ghost use Rattle.std.specs.Prelude.{ℕ, ◌%◌, false, min, take, drop, IsNone};
ghost use Rattle.std.specs.Prelude.{◌↔◌, IsTrue, EachIndex, slice_index, option_map, if◌then◌else◌, length};
ghost use Rattle.std.specs.Char.{digit_value};
ghost use Rattle.std.specs.Vec.{vec_capacity};
ghost use Rattle.std.specs.List.{before_first, position_or_len};
ghost use Rattle.em_text.specs.Numbers.{number, hex_number, hex_address, decimal_number, octets_of};
ghost use Rattle.em_text.specs.Numbers.{ArePairs, IsNoNumber, LeadingNumber};
ghost use Rattle.em_text.specs.Words.{is_blank, words_of, read_first};

use crate::digits::{HALF_LANES, LANES, QUARTER_LANES, hex_values, value_of};
use crate::words::{Words, blanks_len, is_blank, word_len};
use std::alloc::AllocError;
use std::simd::prelude::*;

const HEX: u8 = 16;

const DECIMAL: u8 = 10;

/// The most digits of a number that is read in hexadecimal.
const HEX_NUMBER_DIGITS: usize = 8;

/// The digits of an offset, as a look at all registers prints it.
const OFFSET_DIGITS: usize = 5;

/// The most digits of an address.
const HEX_ADDRESS_DIGITS: usize = 16;

/// The most digits of a number that is read in decimal.
const DECIMAL_NUMBER_DIGITS: usize = 7;

/// Two digits for each octet that is written at once.
const DIGITS_AT_ONCE: usize = 2 * LANES;

/// Two digits for each octet of a half of that.
const HALF_DIGITS: usize = 2 * HALF_LANES;

/// Two digits for each octet of a quarter of it.
const QUARTER_DIGITS: usize = 2 * QUARTER_LANES;

/// How many octets stand often behind a word of digits: a blank and a number of up to four digits.
const NUMBER_BEHIND: usize = 5;

impl Words<'_> {
    /// The number that the next word writes in 1 to 8 hexadecimal digits, in either case. The words
    /// behind it are left.
    #[inline(always)]
    pub fn hex_number(&mut self) -> Option<u32>
        ensures value { option_map (λ value. (value, words_of self.new.0.now)) result
            ≡ read_first hex_number (words_of self.old.0.now) }
    {
        match self.number(HEX, HEX_NUMBER_DIGITS) {
            Some(value) => Some(value as u32),
            None => None,
        }
    }

    /// The number that the next word writes in 1 to 16 hexadecimal digits, in either case.
    #[inline(always)]
    pub fn hex_address(&mut self) -> Option<u64>
        ensures value { option_map (λ value. (value, words_of self.new.0.now)) result
            ≡ read_first hex_address (words_of self.old.0.now) }
    {
        self.number(HEX, HEX_ADDRESS_DIGITS)
    }

    /// The number that the next word writes in 1 to 7 decimal digits: at most 9,999,999.
    #[inline(always)]
    pub fn decimal_number(&mut self) -> Option<u32>
        ensures value { option_map (λ value. (value, words_of self.new.0.now)) result
            ≡ read_first decimal_number (words_of self.old.0.now) }
    {
        match self.number(DECIMAL, DECIMAL_NUMBER_DIGITS) {
            Some(value) => Some(value as u32),
            None => None,
        }
    }

    /// Whether the next word is an even number of hexadecimal digits, 2 digits or more, and if so, the
    /// octets that they write, in place of what `octets` held. The words behind it are left.
    ///
    /// It answers that memory was refused only for octets that stand there.
    #[inline(always)]
    pub fn octets_into(&mut self, octets: &mut Vec<u8>) -> Result<bool, AllocError>
        ensures value { IfOk result (λ found.
            (if found then Some (octets.new.items, words_of self.new.0.now) else None)
            ≡ read_first octets_of (words_of self.old.0.now)) }
        ensures memory { OnErr result (IsSome (read_first octets_of (words_of self.old.0.now))) }
    {
        let line = self.0;
        let line = &line[blanks_len(line)..];
        let Ok(found) = octets_at_front_into(octets, line) else {
            return refused_for(&line[..word_len(line)]);
        };
        let Some(len) = found else {
            return Ok(false);
        };
        self.0 = &line[len..];
        Ok(true)
    }

    /// The number that the next word writes in one to `most` digits in this base. It is read where
    /// it stands: to look for the word's end first would go over its octets twice.
    #[inline(always)]
    fn number(&mut self, base: u8, most: usize) -> Option<u64>
        requires some { 0 < base }
        requires letters { base ≤ 36 }
        requires fits { base ^ most ≤ 2 ^ 64 }
        ensures value { option_map (λ value. (value, words_of self.new.0.now)) result
            ≡ read_first (number base most) (words_of self.old.0.now) }
        ensures bound { IfSome result (λ value. value < base ^ most) }
    {
        let line = self.0;
        let line = &line[blanks_len(line)..];
        let Some((value, len)) = number_at_front(line, base, most) else {
            return None;
        };
        self.0 = &line[len..];
        Some(value)
    }
}

/// The number that 1 to 7 decimal digits write: at most 9,999,999.
#[inline]
pub fn decimal_number(word: &[u8]) -> Option<u32>
    ensures value { result ≡ decimal_number word.now }
{
    match scan_number(word, DECIMAL, DECIMAL_NUMBER_DIGITS) {
        Some((value, len)) if len == word.len() => Some(value as u32),
        _ => None,
    }
}

/// The number that the digits in this base at the front of a text write, and how many they are: one
/// to `most`, up to a blank or the text's end. A whole value and a whole offset are the usual lengths: a loop
/// over just so many octets is tried first.
#[inline(always)]
fn number_at_front(text: &[u8], base: u8, most: usize) -> Option<(u64, usize)>
    requires some { 0 < base }
    requires letters { base ≤ 36 }
    requires fits { base ^ most ≤ 2 ^ 64 }
    ensures none { IsNone result → IsNoNumber base most text.now }
    ensures some { IfSome result (λ found. LeadingNumber base most text.now found.0 found.1) }
{
    if let Some(found) = number_in_chunk::<HEX_NUMBER_DIGITS>(text, base, most) {
        return Some(found);
    }
    if let Some(found) = number_in_chunk::<OFFSET_DIGITS>(text, base, most) {
        return Some(found);
    }
    scan_number(text, base, most)
}

/// The number at the front of a text, as [`scan_number`] reads it, if it ends among the first `N` octets or
/// just behind them: the compiler unrolls a loop over a known number of octets. None also where more octets
/// have to be read.
#[inline(always)]
fn number_in_chunk<const N: usize>(text: &[u8], base: u8, most: usize) -> Option<(u64, usize)>
    requires near { N ≤ 16 }
    requires some { 0 < base }
    requires letters { base ≤ 36 }
    requires fits { base ^ most ≤ 2 ^ 64 }
    ensures { IfSome result (λ found. LeadingNumber base most text.now found.0 found.1) }
{
    let Some(near) = text.first_chunk::<N>() else {
        return None;
    };
    let Some((value, len)) = scan_number(near, base, most) else {
        return None;
    };
    if len == N && len < text.len() && !is_blank(text[len]) {
        return None;
    }
    Some((value, len))
}

/// The number that the digits in this base at the front of a text write, and how many they are: one
/// to `most`, up to a blank or the text's end.
#[inline(always)]
fn scan_number(text: &[u8], base: u8, most: usize) -> Option<(u64, usize)>
    requires some { 0 < base }
    requires fits { base ^ most ≤ 2 ^ 64 }
    ensures none { IsNone result → IsNoNumber base most text.now }
    ensures some { IfSome result (λ found. LeadingNumber base most text.now found.0 found.1) }
{
    let mut value = 0u64;
    let mut len = 0;
    while len < text.len() {
        let digit = value_of(text[len]);
        if digit >= base {
            if !is_blank(text[len]) {
                return None;
            }
            break;
        }
        // Too many digits may wrap; they are no number.
        value = value
            .wrapping_mul(u64::from(base))
            .wrapping_add(u64::from(digit));
        len += 1;
    }
    if len == 0 {
        return None;
    }
    if len > most {
        return None;
    }
    Some((value, len))
}

/// Whether an even number of hexadecimal digits stands there, 2 digits or more, and if so, the
/// octets that they write, in place of what `octets` held.
///
/// Otherwise `octets` is empty afterwards. It answers that memory was refused only for octets that
/// stand there, and only where `octets` has no room for them.
pub fn octets_into(octets: &mut Vec<u8>, word: &[u8]) -> Result<bool, AllocError>
    ensures value { IfOk result (λ found.
        octets_of word.now ≡ (if found then Some octets.new.items else None)) }
    ensures cleared { result ≢ Ok true → octets.new.items ≡ [] }
    ensures memory { OnErr result (vec_capacity octets.old < length word.now / 2) }
    ensures digits { OnErr result (IsSome (octets_of word.now)) }
{
    let Ok(found) = octets_at_front_into(octets, word) else {
        return refused_for(word);
    };
    match found {
        Some(len) if len == word.len() => Ok(true),
        _ => {
            octets.clear();
            Ok(false)
        }
    }
}

/// Where memory was refused for the octets of a word: what is no text of octets is so also then.
#[inline(never)]
fn refused_for(word: &[u8]) -> Result<bool, AllocError>
    ensures none { IfOk result (λ found. (found ≡ false) × (octets_of word.now ≡ None)) }
    ensures digits { OnErr result (IsSome (octets_of word.now)) }
{
    if is_octets(word) {
        Err(AllocError)
    } else {
        Ok(false)
    }
}

/// How many digits the word has that a text begins with, up to a blank or the text's end, if it is of
/// octets; and the octets, in place of what `octets` held, which is empty otherwise.
#[inline(always)]
fn octets_at_front_into(octets: &mut Vec<u8>, text: &[u8]) -> Result<Option<usize>, AllocError>
    ensures some { IfOk result (λ found. IfSome found (λ len. (len ≡ position_or_len is_blank text.now)
        × (octets_of (before_first is_blank text.now) ≡ Some octets.new.items))) }
    ensures none { IfOk result (λ found. IsNone found → (octets_of (before_first is_blank text.now) ≡ None)
        × (octets.new.items ≡ [])) }
    ensures cleared { OnErr result (octets.new.items ≡ []) }
    ensures memory { OnErr result (vec_capacity octets.old < length text.now / 2) }
{
    let most = text.len() / 2;
    if octets.len() < most && octets.resize(most, 0).is_err() {
        octets.clear();
        return Err(AllocError);
    }
    let found = scan_octets(text, octets.as_mut_slice());
    octets.truncate(found.unwrap_or(0) / 2);
    Ok(found)
}

/// Whether an even number of hexadecimal digits stands there, 2 digits or more.
pub fn is_octets(word: &[u8]) -> bool
    ensures { IsTrue result ↔ IsSome (octets_of word.now) }
{
    if word.is_empty() || word.len() % 2 == 1 {
        return false;
    }
    has_digits_alone(word)
}

/// Whether each octet of a word is a hexadecimal digit.
fn has_digits_alone(word: &[u8]) -> bool
    ensures { IsTrue result ↔ EachIndex word.now (λ k. digit_value (slice_index word.now k) < 16) }
{
    word.iter().all(|octet| value_of(*octet) < HEX)
}

/// How many digits the word has that a text begins with, up to a blank or the text's end, if it is of
/// octets, which are written to the front of `octets`.
///
/// The digits are read once, many at a time as long as all of them are digits.
fn scan_octets(text: &[u8], octets: &mut [u8]) -> Option<usize>
    requires { length text.now / 2 ≤ length octets.old }
    ensures none { IsNone result → octets_of (before_first is_blank text.now) ≡ None }
    ensures some { IfSome result (λ len. (len ≡ position_or_len is_blank text.now)
        × (octets_of (before_first is_blank text.now) ≡ Some (take (len / 2) octets.new))) }
{
    let mut done = 0;
    while is_worth_a_vector(text.len() - 2 * done, DIGITS_AT_ONCE)
        && decode::<LANES, DIGITS_AT_ONCE>(text, octets, done)
    {
        done += LANES;
    }
    done += decode_if::<HALF_LANES, HALF_DIGITS>(text, octets, done);
    done += decode_if::<QUARTER_LANES, QUARTER_DIGITS>(text, octets, done);
    while text.len() - 2 * done >= 2 {
        let high = value_of(text[2 * done]);
        let low = value_of(text[2 * done + 1]);
        if high >= HEX || low >= HEX {
            break;
        }
        octets[done] = high * HEX + low;
        done += 1;
    }
    let len = 2 * done;
    if done == 0 || (len < text.len() && !is_blank(text[len])) {
        return None;
    }
    Some(len)
}

/// Whether a text of so many octets is worth reading that many digits at once: not where the word may be
/// shorter and a number may stand behind it.
#[inline(always)]
fn is_worth_a_vector(octets: usize, digits: usize) -> bool
    ensures { IsTrue result → digits ≤ octets }
{
    octets == digits || octets > digits && octets - digits >= NUMBER_BEHIND
}

/// Writes the octets of `D` digits, those from octet `done` on, if so many stand there and all are digits,
/// and tells how many octets these are.
#[inline(always)]
fn decode_if<const N: usize, const D: usize>(text: &[u8], octets: &mut [u8], done: usize) -> usize
    requires two { D ≡ 2 * N }
    requires few { D ≤ 64 }
    requires digits { 2 * done ≤ length text.now }
    requires room { length text.now / 2 ≤ length octets.old }
    ensures within { 2 * (done + result) ≤ length text.now }
    ensures good { ArePairs text.now octets.new done (done + result) }
    ensures before { (k : ℕ) → k < done → slice_index octets.new k ≡ slice_index octets.old k }
{
    if text.len() - 2 * done >= D && decode::<N, D>(text, octets, done) {
        N
    } else {
        0
    }
}

/// Writes the octets of `D` digits, those from octet `done` on, if all are digits. The digits are taken
/// as one vector, without a branch on them.
#[inline(always)]
fn decode<const N: usize, const D: usize>(text: &[u8], octets: &mut [u8], done: usize) -> bool
    requires two { D ≡ 2 * N }
    requires few { D ≤ 64 }
    requires digits { 2 * done + D ≤ length text.now }
    requires room { done + N ≤ length octets.old }
    ensures good { IsTrue result → ArePairs text.now octets.new done (done + N) }
    ensures before { (k : ℕ) → k < done → slice_index octets.new k ≡ slice_index octets.old k }
{
    let lanes = hex_values::<D>(text, 2 * done);
    let values = lanes.to_array();
    for i in 0..N {
        // What is no digit may wrap; it is no octet then.
        octets[done + i] = values[2 * i]
            .wrapping_mul(HEX)
            .wrapping_add(values[2 * i + 1]);
    }
    lanes.simd_eq(Simd::splat(HEX)).to_bitmask() == 0
}
