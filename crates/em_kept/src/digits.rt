//! Numbers in hexadecimal digits.
ghost use Rattle.std.specs.Prelude.{◌≡◌, ◌+◌, ◌<◌, ◌≤◌, ◌++◌, true, drop, length};
ghost use Rattle.std.specs.Fmt.{digit_glyph};
ghost use Rattle.em_text.specs.Writer.{value_digits};
ghost use Rattle.em_kept.specs.Digits.{number_digits};
ghost use Rattle.em_kept.specs.Head.{address_digits, word_digits};

use em_text::octet_digits;

const HEX: u64 = 16;

/// How many digits are numerals.
const NUMERALS: u8 = 10;

/// What a letter is past its value.
const PAST_VALUE: u8 = b'A' - NUMERALS;

/// The most digits of a number.
pub(crate) const MOST_DIGITS: usize = 16;

/// The digits of a number, with no zero in front of them, in the room that is lent for them.
pub(crate) fn number_digits(number: u64, room: &mut [u8; MOST_DIGITS]) -> &[u8]
    ensures { result.now ≡ number_digits number }
{
    let first = put_digits(number, room, MOST_DIGITS);
    &room[first..]
}

/// Puts words and behind them the digits of a number before what stands in a line from `end` on, and tells where they
/// begin: a line is made from its end, so that no number is measured.
#[inline(always)]
pub(crate) fn put_behind(words: &[u8], number: u64, line: &mut [u8], end: usize) -> usize
    requires room { length words.now + 16 ≤ end }
    requires within { end ≤ length line.old }
    ensures most { end ≤ result + length words.now + 16 }
    ensures len { length line.new ≡ length line.old }
    ensures text { drop result line.new ≡ words.now ++ (number_digits number ++ drop end line.old) }
{
    let digits_at = put_digits(number, line, end);
    let at = digits_at - words.len();
    line[at..digits_at].copy_from_slice(words);
    at
}

/// Puts the digits of a number before what stands in a line from `end` on, the last one first, and tells where they begin.
#[inline(always)]
fn put_digits(number: u64, line: &mut [u8], end: usize) -> usize
    requires room { 16 ≤ end }
    requires within { end ≤ length line.old }
    ensures some { result < end }
    ensures near { end ≤ result + 16 }
    ensures len { length line.new ≡ length line.old }
    ensures digits { drop result line.new ≡ number_digits number ++ drop end line.old }
{
    let mut left = number;
    let mut at = end - 1;
    while left >= HEX {
        line[at] = digit((left % HEX) as u8);
        left /= HEX;
        at -= 1;
    }
    line[at] = digit(left as u8);
    at
}

/// The digit of a value below 16.
#[inline(always)]
fn digit(value: u8) -> u8
    requires { value < 16 }
    ensures { result ≡ digit_glyph true value }
{
    if value < NUMERALS {
        b'0' + value
    } else {
        PAST_VALUE + value
    }
}

/// The 8 digits of a value.
#[inline(always)]
pub(crate) fn value_digits(value: u32) -> [u8; 8]
    ensures { result ≡ value_digits value }
{
    let [first, second, third, last] = value.to_be_bytes();
    let [a, b] = octet_digits(first);
    let [c, d] = octet_digits(second);
    let [e, f] = octet_digits(third);
    let [g, h] = octet_digits(last);
    [a, b, c, d, e, f, g, h]
}

/// The 16 digits of an address.
pub(crate) fn address_digits(addr: u64) -> [u8; 16]
    ensures { result ≡ address_digits addr }
{
    let [first, second, third, fourth, fifth, sixth, seventh, last] = addr.to_be_bytes();
    let [a, b] = octet_digits(first);
    let [c, d] = octet_digits(second);
    let [e, f] = octet_digits(third);
    let [g, h] = octet_digits(fourth);
    let [i, j] = octet_digits(fifth);
    let [k, l] = octet_digits(sixth);
    let [m, n] = octet_digits(seventh);
    let [o, p] = octet_digits(last);
    [a, b, c, d, e, f, g, h, i, j, k, l, m, n, o, p]
}

/// The 4 digits of a word.
pub(crate) fn word_digits(word: u16) -> [u8; 4]
    ensures { result ≡ word_digits word }
{
    let [high, low] = word.to_be_bytes();
    let [a, b] = octet_digits(high);
    let [c, d] = octet_digits(low);
    [a, b, c, d]
}
