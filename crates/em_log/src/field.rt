//! The fields of a line: words, and texts behind names.
ghost use Rattle.std.specs.Prelude.{◌≡◌, ◌≤◌, ◌<◌, drop, length, option_map};
ghost use Rattle.em_text.specs.Words.{words_of};
ghost use Rattle.em_log.specs.Field.{begins_with, ends_with, next_field, next_hex, has_two};

use crate::number::hex_in;
use em_text::{Words, is_name};

const EQUALS: u8 = b'=';

/// Whether a text begins with these octets.
#[inline(always)]
pub(crate) fn begins_with<const N: usize>(text: &[u8], front: &[u8; N]) -> bool
    ensures { result ≡ begins_with text.now front.now }
{
    text.len() >= N && is_name(&text[..N], front)
}

/// Whether a text ends with these octets.
#[inline(always)]
pub(crate) fn ends_with<const N: usize>(text: &[u8], end: &[u8; N]) -> bool
    ensures { result ≡ ends_with text.now end.now }
{
    text.len() >= N && is_name(&text[text.len() - N..], end)
}

/// The words behind so many words.
#[inline(always)]
pub(crate) fn behind<'a>(words: Words<'a>, count: usize) -> Words<'a>
    ensures { words_of result.0.now ≡ drop count (words_of words.entry.0.now) }
{
    let mut rest = words;
    for skipped in 0..count {
        let _ = rest.next();
    }
    rest
}

/// The text of the next field, which has this name: `NAME TEXT` or `NAME=TEXT`.
#[inline(always)]
pub(crate) fn next_field<'a, const N: usize>(
    words: &mut Words<'a>,
    name: &[u8; N],
) -> Option<&'a [u8]>
    ensures { option_map (λ text. (text.now, words_of words.new.0.now)) result
        ≡ next_field name.now (words_of words.old.0.now) }
{
    let Some(word) = words.next() else {
        return None;
    };
    if is_name(word, name) {
        return words.next();
    }
    if begins_with(word, name) && word.len() > N && word[N] == EQUALS {
        return Some(&word[N + 1..]);
    }
    None
}

/// The number that the next word writes behind `0x`.
#[inline(always)]
pub(crate) fn next_hex(words: &mut Words<'_>) -> Option<u64>
    ensures { option_map (λ value. (value, words_of words.new.0.now)) result ≡ next_hex (words_of words.old.0.now) }
{
    match words.next() {
        Some(word) => hex_in(word),
        None => None,
    }
}

/// Whether two words or more are still to come.
#[inline(always)]
pub(crate) fn has_two(words: Words<'_>) -> bool
    ensures { result ≡ has_two (words_of words.entry.0.now) }
{
    let mut rest = words;
    rest.next().is_some() && rest.next().is_some()
}
