//! QEMU's trace events `memory_region_ops_read` and `memory_region_ops_write`.
ghost use Rattle.std.specs.Prelude.{◌≡◌, ◌<◌, IsTrue, length};
ghost use Rattle.em_text.specs.Words.{words_of};
ghost use Rattle.em_log.specs.Qemu.{is_event, way_of, is_quoted, unquoted, fields_told, qemu_told};

use crate::field::{behind, ends_with, next_field};
use crate::number::{hex_in, number_in};
use crate::told::{Told, Way, access_of};
use em_text::Words;

/// What stands between the time and the event's name.
const COLON: u8 = b':';

const QUOTE: u8 = b'\'';

/// How many words stand between the event's name and the address: `cpu C mr M`, or time, process, processor and region.
const WORDS_BEFORE: usize = 4;

/// What a line of QEMU's trace tells. The accesses of this region are those of the adapter's registers.
#[tactic(auto, unfolding(crate::specs::Qemu::qemu_told))]
pub(crate) fn qemu_told(region: &[u8], line: &[u8]) -> Told
    ensures { result ≡ qemu_told region.now line.now }
{
    let mut words = Words(line);
    let Some(event) = words.next() else {
        return Told::Nothing;
    };
    match way_of(event) {
        Some(way) => fields_told(region, way, behind(words, WORDS_BEFORE)),
        None => Told::Nothing,
    }
}

/// Which way an access goes, by the name of its event.
fn way_of(event: &[u8]) -> Option<Way>
    ensures { result ≡ way_of event.now }
{
    if is_event(event, b"memory_region_ops_read") {
        Some(Way::Read)
    } else if is_event(event, b"memory_region_ops_write") {
        Some(Way::Write)
    } else {
        None
    }
}

/// Whether a word is the name of this event, with a time before it or without.
#[inline(always)]
fn is_event<const N: usize>(word: &[u8], name: &[u8; N]) -> bool
    ensures { result ≡ is_event word.now name.now }
{
    ends_with(word, name) && (word.len() == N || word[word.len() - N - 1] == COLON)
}

/// What the fields of an access tell.
fn fields_told(region: &[u8], way: Way, words: Words<'_>) -> Told
    ensures { result ≡ fields_told region.now way (words_of words.entry.0.now) }
{
    let mut rest = words;
    let Some(address) = next_field(&mut rest, b"addr") else {
        return Told::Fault;
    };
    let Some(value) = next_field(&mut rest, b"value") else {
        return Told::Fault;
    };
    let Some(size) = next_field(&mut rest, b"size") else {
        return Told::Fault;
    };
    let Some(name) = next_field(&mut rest, b"name") else {
        return Told::Fault;
    };
    if unquoted(name) == region {
        access_of(way, hex_in(address), hex_in(value), number_in(size))
    } else {
        Told::Elsewhere
    }
}

/// A name without its quotes, and without the `b` that Python writes before them.
fn unquoted(text: &[u8]) -> &[u8]
    ensures { result.now ≡ unquoted text.now }
{
    if is_quoted(text) {
        return &text[1..text.len() - 1];
    }
    match text {
        [b'b', rest @ ..] if is_quoted(rest) => &rest[1..rest.len() - 1],
        _ => text,
    }
}

/// Whether a text stands between quotes.
fn is_quoted(text: &[u8]) -> bool
    ensures value { result ≡ is_quoted text.now }
    ensures long { IsTrue result → 1 < length text.now }
{
    text.len() > 1 && text[0] == QUOTE && text[text.len() - 1] == QUOTE
}
