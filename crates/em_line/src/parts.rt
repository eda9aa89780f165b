//! The parts of a line: what it says, and what stands behind that.
ghost use Rattle.std.specs.Prelude.{◌≡◌, ◌+◌, ◌<◌, ◌≤◌, IfSome, length};
ghost use Rattle.std.specs.List.{prefix_len, suffix_len};
ghost use Rattle.std.specs.Option.{option_map};
ghost use Rattle.em_text.specs.Words.{is_blank, words_of};
ghost use Rattle.em_line.specs.Parts.{AreParts, begins_at, behind_of, first_place, front_of, is_comment_line, mark_in};
ghost use Rattle.em_line.specs.Parts.{is_mark, marks_at, place_of, said_in, stands_at, without_blanks, without_end};

use crate::grammar::{HASH, is_comment};
use em_text::Words;

const SPACE: u8 = b' ';

const TAB: u8 = b'\t';

const CARRIAGE_RETURN: u8 = b'\r';

/// What an expected answer begins with.
const EQUALS: u8 = b'=';

/// What the place begins with that a line comes from.
const AT: u8 = b'@';

/// The parts of a line, as they stand.
#[derive(Clone, Copy)]
pub struct Parts<'a> {
    /// What the line says, without blanks at its end; the whole line as it is where nothing stands behind that.
    pub said: &'a [u8],
    /// The answer that it expects, if it expects one, without blanks at either end. It may be empty.
    pub expected: Option<&'a [u8]>,
    /// Where it comes from, as a caller or a log says: `FILE:LINE`. What stands there is not read.
    pub source: Option<&'a [u8]>,
    /// What its comment says.
    pub comment: Option<&'a [u8]>,
}

/// Takes a line apart. Behind what it says there may stand, in this order, the answer that it expects, where it comes from,
/// and a comment. A word that begins with `=`, `@` or `#` begins each of them.
///
/// A line whose first word begins with `#` is a comment. It is kept whole, and expects nothing.
pub fn parts_of(line: &[u8]) -> Parts<'_>
    ensures { AreParts line.now result }
{
    match first_mark(line) {
        Some(_) => marked_parts(line),
        None => Parts {
            said: line,
            expected: None,
            source: None,
            comment: None,
        },
    }
}

/// The same of a line in which something may stand behind what it says.
fn marked_parts(line: &[u8]) -> Parts<'_>
    ensures { AreParts line.now result }
{
    let text = front_of(line, HASH);
    Parts {
        said: said_in(line),
        expected: behind_of(front_of(text, AT), EQUALS),
        source: behind_of(text, AT),
        comment: behind_of(line, HASH),
    }
}

/// What a line says, as it stands.
fn said_in(line: &[u8]) -> &[u8]
    ensures { result.now ≡ said_in line.now }
{
    match mark_in(line) {
        Some(at) => without_end(&line[..at]),
        None => line,
    }
}

/// Where what stands behind begins.
fn mark_in(line: &[u8]) -> Option<usize>
    ensures place { result ≡ mark_in line.now }
    ensures within { IfSome result (λ at. at < length line.now) }
{
    if is_comment_line(line) {
        None
    } else {
        first_mark(line)
    }
}

/// Where the first word stands that begins with `=`, `@` or `#`.
fn first_mark(line: &[u8]) -> Option<usize>
    ensures place { result ≡ first_place (marks_at line.now) line.now }
    ensures within { IfSome result (λ at. at < length line.now) }
{
    (0..line.len()).find(|at| marks_at(line, *at))
}

/// Whether such a word stands at a place.
fn marks_at(line: &[u8], at: usize) -> bool
    requires { at < length line.now }
    ensures { result ≡ marks_at line.now at }
{
    is_mark(line[at]) && begins_at(line, at)
}

/// Whether a part that stands behind what a line says begins with an octet.
#[inline(always)]
fn is_mark(octet: u8) -> bool
    ensures { result ≡ is_mark octet }
{
    matches!(octet, EQUALS | AT | HASH)
}

/// Whether a line is a comment.
fn is_comment_line(line: &[u8]) -> bool
    ensures { result ≡ is_comment_line (words_of line.now) }
{
    match Words(line).next_short() {
        Some(word) => is_comment(word),
        None => false,
    }
}

/// What stands before the first word that begins with an octet: all, where there is none.
fn front_of(text: &[u8], octet: u8) -> &[u8]
    ensures { result.now ≡ front_of octet text.now }
{
    match place_of(text, octet) {
        Some(at) => &text[..at],
        None => text,
    }
}

/// What stands behind that octet, if there is one.
fn behind_of(text: &[u8], octet: u8) -> Option<&[u8]>
    ensures { option_map (λ behind. behind.now) result ≡ behind_of octet text.now }
{
    let at = place_of(text, octet)?;
    Some(without_blanks(&text[at + 1..]))
}

/// Where the first word stands that begins with an octet.
fn place_of(text: &[u8], octet: u8) -> Option<usize>
    ensures place { result ≡ place_of octet text.now }
    ensures within { IfSome result (λ at. at < length text.now) }
{
    (0..text.len()).find(|at| stands_at(text, *at, octet))
}

/// Whether a word that begins with an octet stands at a place.
fn stands_at(text: &[u8], at: usize, octet: u8) -> bool
    requires { at < length text.now }
    ensures { result ≡ stands_at octet text.now at }
{
    text[at] == octet && begins_at(text, at)
}

/// Whether a word begins at a place of a text if any stands there.
fn begins_at(text: &[u8], at: usize) -> bool
    requires { at < length text.now }
    ensures { result ≡ begins_at text.now at }
{
    at == 0 || is_blank(text[at - 1])
}

/// A text without the blanks at both ends.
fn without_blanks(text: &[u8]) -> &[u8]
    ensures { result.now ≡ without_blanks text.now }
{
    without_end(&text[blanks_len(text)..])
}

/// A text without the blanks at its end.
fn without_end(text: &[u8]) -> &[u8]
    ensures { result.now ≡ without_end text.now }
{
    &text[..text.len() - blanks_at_end(text)]
}

/// How many blanks a text begins with.
fn blanks_len(text: &[u8]) -> usize
    ensures value { result ≡ prefix_len is_blank text.now }
    ensures within { result ≤ length text.now }
{
    text.iter().take_while(|octet| is_blank(**octet)).count()
}

/// How many blanks a text ends with.
fn blanks_at_end(text: &[u8]) -> usize
    ensures value { result ≡ suffix_len is_blank text.now }
    ensures within { result ≤ length text.now }
{
    text.iter()
        .rev()
        .take_while(|octet| is_blank(**octet))
        .count()
}

fn is_blank(octet: u8) -> bool
    ensures { result ≡ is_blank octet }
{
    matches!(octet, SPACE | TAB | CARRIAGE_RETURN)
}
