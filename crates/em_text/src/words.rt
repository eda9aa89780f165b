//! The words of a line.
ghost use Rattle.std.specs.Prelude.{◌≡◌, ◌+◌, ◌<◌, ◌≤◌, ◌↔◌, ◌∷◌, [], ℕ, false, length, slice_index};
ghost use Rattle.std.specs.Prelude.{IsTrue, IfSome, IsNone};
ghost use Rattle.std.specs.List.{prefix_len, position_or_len};
ghost use Rattle.std.specs.Str.{bytes_eq};
ghost use Rattle.std.specs.Iterator.{YieldsFirstRef, item_count};
ghost use Rattle.em_text.specs.Words.{words_of, is_blank};

use crate::digits::{HALF_LANES, LANES};

const SPACE: u8 = b' ';

const TAB: u8 = b'\t';

const CARRIAGE_RETURN: u8 = b'\r';

/// The words of a line that are still to come: its parts between spaces, tabs and carriage
/// returns, less the empty ones.
#[derive(Clone, Copy, Debug)]
pub struct Words<'a>(pub &'a [u8]);

impl<'a> Iterator for Words<'a> {
    type Item = &'a [u8];

    ghost next_gives = { YieldsFirstRef (λ s. words_of s.0.now) };

    ghost remaining = { item_count (λ s. words_of s.0.now) };

    #[inline(always)]
    fn next(&mut self) -> Option<&'a [u8]> {
        let line = self.0;
        let line = &line[blanks_len(line)..];
        if line.is_empty() {
            return None;
        }
        let len = word_len(line);
        let (word, rest) = line.split_at(len);
        self.0 = rest;
        Some(word)
    }
}

impl<'a> Words<'a> {
    /// The next word, looked for octet by octet: for a word that is short where the line may be long,
    /// as a name is.
    #[inline(always)]
    pub fn next_short(&mut self) -> Option<&'a [u8]>
        ensures some { IfSome result (λ word. words_of self.old.0.now ≡ word.now ∷ words_of self.new.0.now) }
        ensures none { IsNone result → words_of self.old.0.now ≡ [] }
    {
        let line = self.0;
        let line = &line[blanks_len(line)..];
        if line.is_empty() {
            return None;
        }
        let len = short_word_len(line);
        let (name, rest) = line.split_at(len);
        self.0 = rest;
        Some(name)
    }

    /// Whether no word is still to come.
    #[inline(always)]
    pub fn is_over(&self) -> bool
        ensures { IsTrue result ↔ (words_of self.now.0.now ≡ []) }
    {
        blanks_len(self.0) == self.0.len()
    }
}

/// How many blanks a line begins with. Mostly there is none, or one space before a word.
#[inline(always)]
pub fn blanks_len(line: &[u8]) -> usize
    ensures value { result ≡ prefix_len is_blank line.now }
    ensures within { result ≤ length line.now }
{
    match line {
        [] => 0,
        [first, ..] if *first > SPACE => 0,
        [SPACE, second, ..] if *second > SPACE => 1,
        _ => many_blanks_len(line),
    }
}

/// How many blanks a line begins with, octet by octet.
#[inline(never)]
fn many_blanks_len(line: &[u8]) -> usize
    ensures value { result ≡ prefix_len is_blank line.now }
    ensures within { result ≤ length line.now }
{
    line.iter().take_while(|octet| is_blank(**octet)).count()
}

/// How many octets a line has before its first blank: many octets at a time, as long as none of them can be a
/// blank.
#[inline(never)]
pub fn word_len(line: &[u8]) -> usize
    ensures value { result ≡ position_or_len is_blank line.now }
    ensures within { result ≤ length line.now }
{
    let mut len = 0;
    while line.len() - len >= LANES && is_all_above_blanks::<LANES>(line, len) {
        len += LANES;
    }
    if line.len() - len >= HALF_LANES && is_all_above_blanks::<HALF_LANES>(line, len) {
        len += HALF_LANES;
    }
    while len < line.len() && !is_blank(line[len]) {
        len += 1;
    }
    len
}

/// Whether each of `N` octets is above every blank. Without a branch, so that the compiler takes several
/// at once.
#[inline(always)]
fn is_all_above_blanks<const N: usize>(line: &[u8], from: usize) -> bool
    requires { from + N ≤ length line.now }
    ensures { IsTrue result → (i : ℕ) → i < N → is_blank (slice_index line.now (from + i)) ≡ false }
{
    let mut above = true;
    for i in 0..N {
        above &= line[from + i] > SPACE;
    }
    above
}

/// How many octets a line has before its first blank, octet by octet.
#[inline(always)]
fn short_word_len(line: &[u8]) -> usize
    ensures value { result ≡ position_or_len is_blank line.now }
    ensures within { result ≤ length line.now }
{
    line.iter().take_while(|octet| !is_blank(**octet)).count()
}

/// Whether a word is this name. The name's length is known, so that no call compares them.
#[inline(always)]
pub fn is_name<const N: usize>(word: &[u8], name: &[u8; N]) -> bool
    ensures { result ≡ bytes_eq word.now name.now }
{
    word.len() == N && word.starts_with(name)
}

#[inline]
pub fn is_blank(octet: u8) -> bool
    ensures { result ≡ is_blank octet }
{
    matches!(octet, SPACE | TAB | CARRIAGE_RETURN)
}
