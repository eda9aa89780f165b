//! The part of a line that says something.
ghost use Rattle.std.specs.Prelude.{◌≡◌, ◌≤◌, length, reverse, slice_index, find};
ghost use Rattle.std.specs.List.{prefix_len, position_or_len, range_with_len};
ghost use Rattle.em_text.specs.Words.{is_blank};
ghost use Rattle.em_prompt.specs.Told.{told, without_mark, before_comment, is_comment_at, from_word, first_word, behind_first};
ghost use Rattle.em_prompt.specs.Told.{without_blanks};

/// What a comment begins with.
const HASH: u8 = b'#';

/// What a line says: it is cut off before a comment, and a byte order mark before it is left out.
pub(crate) fn told(line: &[u8]) -> &[u8]
    ensures value { result.now ≡ told line.now }
    ensures within { length result.now ≤ length line.now }
{
    before_comment(without_mark(line))
}

/// A line without a byte order mark before it.
fn without_mark(line: &[u8]) -> &[u8]
    ensures value { result.now ≡ without_mark line.now }
    ensures within { length result.now ≤ length line.now }
{
    match line {
        [0xEF, 0xBB, 0xBF, rest @ ..] => rest,
        _ => line,
    }
}

/// A line up to a comment.
fn before_comment(line: &[u8]) -> &[u8]
    ensures value { result.now ≡ before_comment line.now }
    ensures within { length result.now ≤ length line.now }
{
    match comment_at(line) {
        Some(at) => &line[..at.min(line.len())],
        None => line,
    }
}

/// Where the first comment begins.
fn comment_at(line: &[u8]) -> Option<usize>
    ensures { result ≡ find (is_comment_at line.now) (range_with_len 0 (length line.now)) }
{
    (0..line.len()).find(|at| is_comment_at(line, *at))
}

/// Whether a comment begins at an octet: it is a hash, and no word stands right before it.
fn is_comment_at(line: &[u8], at: usize) -> bool
    ensures { result ≡ is_comment_at line.now at }
{
    octet_at(line, at) == HASH && (at == 0 || is_blank(octet_at(line, at.saturating_sub(1))))
}

/// An octet; 0 behind the end.
fn octet_at(line: &[u8], at: usize) -> u8
    ensures { result ≡ slice_index line.now at }
{
    if at < line.len() { line[at] } else { 0 }
}

/// The first word of a text, and what stands behind it.
pub(crate) fn first_word(text: &[u8]) -> (&[u8], &[u8])
    ensures word { result.0.now ≡ first_word text.now }
    ensures behind { result.1.now ≡ behind_first text.now }
    ensures within { length result.1.now ≤ length text.now }
{
    let text = from_word(text);
    text.split_at(word_len(text))
}

/// A text without the blanks around it.
pub(crate) fn without_blanks(text: &[u8]) -> &[u8]
    ensures { result.now ≡ without_blanks text.now }
{
    let text = from_word(text);
    &text[..text.len() - blanks_at_end(text)]
}

/// A text from its first octet on that is no blank.
fn from_word(text: &[u8]) -> &[u8]
    ensures value { result.now ≡ from_word text.now }
    ensures within { length result.now ≤ length text.now }
{
    &text[blanks_len(text)..]
}

/// How many octets a text has before its first blank.
fn word_len(text: &[u8]) -> usize
    ensures value { result ≡ position_or_len is_blank text.now }
    ensures within { result ≤ length text.now }
{
    text.iter().take_while(|octet| !is_blank(**octet)).count()
}

/// How many blanks a text begins with.
fn blanks_len(text: &[u8]) -> usize
    ensures value { result ≡ prefix_len is_blank text.now }
    ensures within { result ≤ length text.now }
{
    text.iter().take_while(|octet| is_blank(**octet)).count()
}

/// How many blanks a text ends with.
fn blanks_at_end(text: &[u8]) -> usize
    ensures value { result ≡ prefix_len is_blank (reverse text.now) }
    ensures within { result ≤ length text.now }
{
    text.iter()
        .rev()
        .take_while(|octet| is_blank(**octet))
        .count()
}

/// A space, a tab or a carriage return: what separates words.
fn is_blank(octet: u8) -> bool
    ensures { result ≡ is_blank octet }
{
    matches!(octet, b' ' | b'\t' | b'\r')
}
