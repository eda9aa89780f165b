//! A line of a script, in the language that one types.
ghost use Rattle.std.specs.Prelude.{◌≡◌};
ghost use Rattle.std.specs.Option.{option_map};
ghost use Rattle.em_prompt.specs.BenchLine.{plain};
ghost use Rattle.em_text.specs.Words.{words_of};
ghost use Rattle.em_prompt.specs.Scripted.{is_access, is_plain, names_one, scripted};

use crate::bench_line::BenchLine;
use crate::prompt::prompted;
use crate::register::named;
use crate::typed::Typed;
use em_line::is_line;
use em_regs::Profile;
use em_text::{Words, is_name};

/// A line that is read for names has fewer octets.
const MOST_OCTETS: usize = 0xFFFF_FFFF;

/// The line of em_bench's that a line of a script says in other words than em_bench reads: by the names of registers of
/// this profile and of bits, say. Such a line is played as `BenchLine::write` writes it, so that a file may have all that can be typed; any
/// other is played as it stands, and so is each line that em_bench reads as what it says. `said` is without what may stand behind
/// that.
pub fn scripted(profile: Profile, said: &[u8]) -> Option<BenchLine<'_>>
    ensures { option_map plain result ≡ scripted profile said.now }
{
    if is_plain(profile, said) || said.len() >= MOST_OCTETS {
        return None;
    }
    match prompted(profile, said) {
        Ok(Typed::Line(line)) => Some(line),
        _ => None,
    }
}

/// Whether em_bench reads a line that says this, and means the same by it. By EECD or DC it means an offset in hexadecimal
/// digits, and either is a register's name in the second profile.
pub fn is_plain(profile: Profile, said: &[u8]) -> bool
    ensures { result ≡ is_plain profile said.now }
{
    is_line(said) && !names_one(profile, Words(said))
}

/// Whether words access a register by a name, where names may be offsets too: in the second profile.
fn names_one(profile: Profile, words: Words<'_>) -> bool
    ensures { result ≡ names_one profile (words_of words.entry.0.now) }
{
    match profile {
        Profile::Table => false,
        Profile::Adapter => accesses_name(words),
    }
}

/// Whether words access a register of the second profile by its name.
fn accesses_name(mut words: Words<'_>) -> bool
    ensures { result ≡ names_one Profile.Adapter (words_of words.entry.0.now) }
{
    let Some(command) = words.next() else {
        return false;
    };
    let Some(word) = words.next() else {
        return false;
    };
    is_access(command) && named(Profile::Adapter, word).is_some()
}

/// Whether a command reads or writes a register.
pub(crate) fn is_access(command: &[u8]) -> bool
    ensures { result ≡ is_access command.now }
{
    is_name(command, b"r") || is_name(command, b"w")
}
