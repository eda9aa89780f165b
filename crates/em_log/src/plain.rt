//! Lines that a driver prints itself: `write 0x00d0 0x00000004`, with anything before and behind, and
//! `mem 0x2000 00200000`, with anything before.
ghost use Rattle.std.specs.Prelude.{◌≡◌, ◌≤◌, length, option_map};
ghost use Rattle.em_text.specs.Words.{words_of};
ghost use Rattle.std.specs.Str.{str_eq_ignore_ascii_case};
ghost use Rattle.em_log.specs.Plain.{is_word, is_hex_next, is_address_next, said_by, said_in, access_told, plain_told};
ghost use Rattle.em_log.specs.Plain.{written_by, memory_written};

use crate::field::next_hex;
use crate::number::{hex_in, is_hex};
use crate::told::{Access, Told, Way, Width, access_of};
use em_text::{Words, is_octets};

/// How many octets an access has: the line does not say it.
const OCTETS: u64 = 4;

/// What a driver prints of.
#[derive(Clone, Copy)]
pub(crate) enum Said {
    Access(Way),
    /// Octets that it wrote into guest memory.
    Memory,
}

/// What a driver wrote into guest memory.
#[derive(Clone, Copy)]
pub struct MemoryWrite<'a> {
    pub address: u64,
    /// The octets, each as two hexadecimal digits: two digits or more.
    pub digits: &'a [u8],
}

/// What a line tells that a driver printed.
#[tactic(auto, unfolding(crate::specs::Plain::plain_told))]
pub(crate) fn plain_told(line: &[u8]) -> Told
    ensures { result ≡ plain_told line.now }
{
    match said_in(line) {
        Some((Said::Access(way), words)) => access_told(way, words),
        Some((Said::Memory, words)) => match written_by(words) {
            Some(_) => Told::Memory,
            None => Told::Fault,
        },
        None => Told::Nothing,
    }
}

/// What a driver wrote into guest memory, by a line that it printed.
///
/// Of a line that [`crate::Log::read`] calls [`crate::Entry::Memory`] there is such a write.
#[tactic(auto, unfolding(crate::specs::Plain::memory_written))]
pub fn memory_written(line: &[u8]) -> Option<MemoryWrite<'_>>
    ensures { option_map (λ write. (write.address, write.digits.now)) result ≡ memory_written line.now }
{
    match said_in(line) {
        Some((Said::Memory, words)) => written_by(words),
        _ => None,
    }
}

/// What a line is of, by the first of its words that says so, and the words behind that.
fn said_in(line: &[u8]) -> Option<(Said, Words<'_>)>
    ensures { option_map (λ said. (said.0, words_of said.1.0.now)) result ≡ said_in (words_of line.now) }
{
    let mut words = Words(line);
    while let Some(word) = words.next() {
        if let Some(said) = said_by(word, words) {
            return Some((said, words));
        }
    }
    None
}

/// What a word says that a line is of, where the words behind it go on so.
pub(crate) fn said_by(word: &[u8], words: Words<'_>) -> Option<Said>
    ensures { result ≡ said_by word.now (words_of words.entry.0.now) }
{
    if is_word(word, b"read") && is_hex_next(words) {
        Some(Said::Access(Way::Read))
    } else if is_word(word, b"write") && is_hex_next(words) {
        Some(Said::Access(Way::Write))
    } else if is_word(word, b"mem") && is_address_next(words) {
        Some(Said::Memory)
    } else {
        None
    }
}

/// Whether this is the word, in either case of its letters, alone or behind an octet that is no letter.
#[inline(always)]
fn is_word<const N: usize>(word: &[u8], name: &[u8; N]) -> bool
    ensures { result ≡ is_word word.now name.now }
{
    word.len() >= N
        && same_letters(&word[word.len() - N..], name)
        && (word.len() == N || !word[word.len() - N - 1].is_ascii_alphabetic())
}

/// Whether two texts are the same, in either case of their letters.
#[inline(always)]
fn same_letters(text: &[u8], other: &[u8]) -> bool
    ensures { result ≡ str_eq_ignore_ascii_case text.now other.now }
{
    text.eq_ignore_ascii_case(other)
}

/// Whether the next word begins with `0x`.
fn is_hex_next(words: Words<'_>) -> bool
    ensures { result ≡ is_hex_next (words_of words.entry.0.now) }
{
    let mut rest = words;
    match rest.next() {
        Some(word) => is_hex(word),
        None => false,
    }
}

/// Whether the next word is a number behind `0x`.
fn is_address_next(words: Words<'_>) -> bool
    ensures { result ≡ is_address_next (words_of words.entry.0.now) }
{
    let mut rest = words;
    match rest.next() {
        Some(word) => hex_in(word).is_some(),
        None => false,
    }
}

/// The address and the octets, which are the last word.
fn written_by(words: Words<'_>) -> Option<MemoryWrite<'_>>
    ensures { option_map (λ write. (write.address, write.digits.now)) result
        ≡ written_by (words_of words.entry.0.now) }
{
    let mut rest = words;
    let address = next_hex(&mut rest)?;
    let digits = rest.next()?;
    if is_octets(digits) && rest.is_over() {
        Some(MemoryWrite { address, digits })
    } else {
        None
    }
}

/// What the offset and the value tell. A read may stand there without the value.
fn access_told(way: Way, words: Words<'_>) -> Told
    ensures { result ≡ access_told way (words_of words.entry.0.now) }
{
    let mut rest = words;
    let Some(address) = next_hex(&mut rest) else {
        return Told::Fault;
    };
    if way == Way::Read && !is_hex_next(rest) {
        return Told::Access(Access {
            way,
            address,
            width: Width::Four,
            value: None,
        });
    }
    let Some(value) = next_hex(&mut rest) else {
        return Told::Fault;
    };
    access_of(way, Some(address), Some(value), Some(OCTETS))
}
