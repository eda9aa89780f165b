//! The command that may be meant by a word that names none.
ghost use Rattle.std.specs.Prelude.{◌≡◌, drop};
ghost use Rattle.em_prompt.specs.Near.{begins, begun, common, first_near, is_edited, is_near};
ghost use Rattle.em_prompt.specs.Near.{is_swapped, mistyped, near_of};
ghost use Rattle.em_prompt.specs.Command.{name_of};

use crate::command::{COMMANDS, Command};

/// What many ask for help by.
const QUESTION: &[u8] = b"?";

/// And this, with which another command begins too.
const LETTER: &[u8] = b"h";

/// A word has more letters than these, if it is to be taken for another with a mistake in it.
const FEW_LETTERS: usize = 2;

/// The command that may be meant by a word that names none: `?` and `h` mean help; else it is the first whose name is the
/// word with one letter put in, left out or changed, or two that stand side by side turned; else the first whose name begins
/// with the word.
pub(crate) fn near_of(word: &[u8]) -> Option<Command>
    ensures { result ≡ near_of word.now }
{
    if word == QUESTION || word == LETTER {
        return Some(Command::Help);
    }
    match mistyped(word) {
        Some(command) => Some(command),
        None => begun(word),
    }
}

/// The first command that is near to a word of three letters or more.
fn mistyped(word: &[u8]) -> Option<Command>
    ensures { result ≡ mistyped word.now }
{
    if word.len() > FEW_LETTERS {
        first_near(word)
    } else {
        None
    }
}

/// The first command that is near to a word.
fn first_near(word: &[u8]) -> Option<Command>
    ensures { result ≡ first_near word.now }
{
    COMMANDS
        .iter()
        .copied()
        .find(|command| command.is_near(word))
}

/// The first command whose name begins with a word.
fn begun(word: &[u8]) -> Option<Command>
    ensures { result ≡ begun word.now }
{
    COMMANDS
        .iter()
        .copied()
        .find(|command| command.is_begun(word))
}

impl Command {
    ghost use Rattle.std.specs.Prelude.{◌≡◌};
    ghost use Rattle.em_prompt.specs.Command.{name_of};
    ghost use Rattle.em_prompt.specs.Near.{begins, is_near};

    /// Whether a word is near to its name.
    fn is_near(self, word: &[u8]) -> bool
        ensures { result ≡ is_near word.now (name_of self) }
    {
        is_near(word, self.name().as_bytes())
    }

    /// Whether its name begins with a word.
    fn is_begun(self, word: &[u8]) -> bool
        ensures { result ≡ begins word.now (name_of self) }
    {
        begins(word, self.name().as_bytes())
    }
}

/// Whether a name begins with a word.
pub fn begins(word: &[u8], name: &[u8]) -> bool
    ensures { result ≡ begins word.now name.now }
{
    &name[..name.len().min(word.len())] == word
}

/// Whether a word is a name but for one letter, or two that are turned.
pub fn is_near(word: &[u8], name: &[u8]) -> bool
    ensures { result ≡ is_near word.now name.now }
{
    let at = common(word, name);
    is_edited(from(word, at), from(name, at))
}

/// How many letters two words have in common at their fronts.
fn common(a: &[u8], b: &[u8]) -> usize
    ensures { result ≡ common a.now b.now }
{
    a.iter()
        .zip(b)
        .take_while(|pair| *pair.0 == *pair.1)
        .count()
}

/// A text from an octet on.
fn from(text: &[u8], at: usize) -> &[u8]
    ensures { result.now ≡ drop at text.now }
{
    &text[at.min(text.len())..]
}

/// Whether the first letter is left out, put in or changed, or the first two are turned, and all else is the same.
fn is_edited(a: &[u8], b: &[u8]) -> bool
    ensures { result ≡ is_edited a.now b.now }
{
    from(a, 1) == b || a == from(b, 1) || from(a, 1) == from(b, 1) || is_swapped(a, b)
}

/// Whether the first two letters are those of the other word, turned, and the rest is the same.
fn is_swapped(a: &[u8], b: &[u8]) -> bool
    ensures { result ≡ is_swapped a.now b.now }
{
    match (a, b) {
        ([first, second, rest @ ..], [third, fourth, others @ ..]) => {
            *first == *fourth && *second == *third && rest == others
        }
        _ => false,
    }
}
