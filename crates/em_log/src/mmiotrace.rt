//! Linux's mmiotrace.
ghost use Rattle.std.specs.Prelude.{◌≡◌};
ghost use Rattle.em_text.specs.Words.{words_of};
ghost use Rattle.em_log.specs.Mmiotrace.{access_told, map_told, mmiotrace_told};

use crate::field::{behind, has_two, next_hex};
use crate::log::SPACE;
use crate::number::number_in;
use crate::told::{Told, Way, access_of};
use em_text::{Words, is_name};

/// How many words stand between the width of an access and its address: its time and its map.
const BEFORE_PHYSICAL: usize = 2;

/// What a line of mmiotrace tells.
#[tactic(auto, unfolding(crate::specs::Mmiotrace::mmiotrace_told))]
pub(crate) fn mmiotrace_told(line: &[u8]) -> Told
    ensures { result ≡ mmiotrace_told line.now }
{
    let mut words = Words(line);
    let Some(keyword) = words.next() else {
        return Told::Nothing;
    };
    if is_name(keyword, b"R") {
        access_told(Way::Read, words)
    } else if is_name(keyword, b"W") {
        access_told(Way::Write, words)
    } else if is_name(keyword, b"MAP") {
        map_told(words)
    } else {
        Told::Nothing
    }
}

/// What the words behind `R` or `W` tell.
fn access_told(way: Way, words: Words<'_>) -> Told
    ensures { result ≡ access_told way (words_of words.entry.0.now) }
{
    let mut rest = words;
    let Some(width) = rest.next() else {
        return Told::Fault;
    };
    let mut rest = behind(rest, BEFORE_PHYSICAL);
    let Some(physical) = next_hex(&mut rest) else {
        return Told::Fault;
    };
    let Some(value) = next_hex(&mut rest) else {
        return Told::Fault;
    };
    if has_two(rest) {
        access_of(way, Some(physical), Some(value), number_in(width))
    } else {
        Told::Fault
    }
}

/// What the words behind `MAP` tell. A map as long as the adapter's registers is theirs.
fn map_told(words: Words<'_>) -> Told
    ensures { result ≡ map_told (words_of words.entry.0.now) }
{
    let mut rest = behind(words, BEFORE_PHYSICAL);
    let Some(physical) = next_hex(&mut rest) else {
        return Told::Fault;
    };
    let mut rest = behind(rest, 1);
    let Some(len) = next_hex(&mut rest) else {
        return Told::Fault;
    };
    if len == SPACE {
        Told::Base(physical)
    } else {
        Told::Nothing
    }
}
