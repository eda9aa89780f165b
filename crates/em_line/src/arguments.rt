//! The words behind a command's name.
ghost use Rattle.std.specs.Prelude.{◌≡◌};
ghost use Rattle.em_line.specs.Arguments.{arguments_of, plain};
ghost use Rattle.em_text.specs.Words.{words_of};

use em_text::Words;

/// The words behind a command's name, by how many they are.
#[derive(Clone, Copy)]
pub enum Arguments<'a> {
    Zero,
    One(&'a [u8]),
    Two(&'a [u8], &'a [u8]),
    /// Three or more.
    More,
}

/// The words that are still to come.
#[inline]
pub fn arguments_of(mut words: Words<'_>) -> Arguments<'_>
    ensures { plain result ≡ arguments_of (words_of words.entry.0.now) }
{
    let Some(first) = words.next() else {
        return Arguments::Zero;
    };
    let Some(second) = words.next() else {
        return Arguments::One(first);
    };
    match words.next() {
        None => Arguments::Two(first, second),
        Some(_) => Arguments::More,
    }
}
