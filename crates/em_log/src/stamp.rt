//! When a driver printed a line, by a time in front of what the line is of: `[   12.345678] e1000: write 0x00d0 0x4`, as the
//! kernel prints it, or `12.345678: write 0x00d0 0x4`.
ghost use Rattle.std.specs.Prelude.{◌≡◌, option_map};
ghost use Rattle.em_text.specs.Words.{words_of};
ghost use Rattle.em_log.specs.Stamp.{is_digit, is_digits, is_stamp, unmarked, without_bracket, without_end, stamp_in};
ghost use Rattle.em_log.specs.Stamp.{printed_stamp};

use crate::plain::said_by;
use em_text::Words;

/// How many digits stand behind the point, and how many octets that are with it.
const FRACTION: usize = 7;

/// The time that a driver's line has in front of what it is of, as the line has it: seconds, a point, and six digits, alone,
/// in brackets, or with a colon behind.
#[tactic(auto, unfolding(crate::specs::Stamp::printed_stamp))]
pub fn printed_stamp(line: &[u8]) -> Option<&[u8]>
    ensures { option_map (λ stamp. stamp.now) result ≡ printed_stamp line.now }
{
    let mut words = Words(line);
    while let Some(word) = words.next() {
        let stamp = unmarked(word);
        if is_stamp(stamp) {
            return Some(stamp);
        }
        if said_by(word, words).is_some() {
            return None;
        }
    }
    None
}

/// A word without the bracket in front of it, and without the one or the colon behind it.
fn unmarked(word: &[u8]) -> &[u8]
    ensures { result.now ≡ unmarked word.now }
{
    without_end(without_bracket(word))
}

fn without_bracket(word: &[u8]) -> &[u8]
    ensures { result.now ≡ without_bracket word.now }
{
    match word {
        [b'[', behind @ ..] => behind,
        _ => word,
    }
}

fn without_end(word: &[u8]) -> &[u8]
    ensures { result.now ≡ without_end word.now }
{
    if word.is_empty() {
        return word;
    }
    let last = word.len() - 1;
    if word[last] == b']' || word[last] == b':' {
        &word[..last]
    } else {
        word
    }
}

/// Whether a text is a time: one or more digits, a point, and six digits.
fn is_stamp(text: &[u8]) -> bool
    ensures { result ≡ is_stamp text.now }
{
    if text.len() <= FRACTION {
        return false;
    }
    let point = text.len() - FRACTION;
    text[point] == b'.' && is_digits(&text[..point]) && is_digits(&text[point + 1..])
}

/// Whether all of these octets are digits.
fn is_digits(text: &[u8]) -> bool
    ensures { result ≡ is_digits text.now }
{
    let mut rest = text;
    while let [octet, behind @ ..] = rest {
        if !is_digit(*octet) {
            return false;
        }
        rest = behind;
    }
    true
}

fn is_digit(octet: u8) -> bool
    ensures { result ≡ is_digit octet }
{
    octet.is_ascii_digit()
}
