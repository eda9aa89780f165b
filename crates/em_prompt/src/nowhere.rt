//! An access that finds no register.
ghost use Rattle.std.specs.Prelude.{◌≡◌, find};
ghost use Rattle.std.specs.Option.{option_map};
ghost use Rattle.em_text.specs.Words.{words_of};
ghost use Rattle.em_prompt.specs.Nowhere.{is_meant, is_nowhere, nowhere_by, nowhere_said, plain};

use crate::near::is_near;
use crate::register::named;
use crate::script_line::is_access;
use crate::word::hex_number_in;
use em_line::bare;
use em_names::name;
use em_regs::{Profile, Reg};
use em_text::Words;

/// A word of fewer letters is near to many names.
const LEAST_LETTERS: usize = 3;

/// An access that is answered, though no register lies there: a slip, where somebody typed it.
#[derive(Clone, Copy)]
pub struct Nowhere<'a> {
    /// Where no register lies.
    pub offset: u32,
    /// The digits that say so.
    pub word: &'a [u8],
}

/// The access that a line says, if it is answered though no register lies there. `said` is without what may stand behind that.
pub fn nowhere_said(profile: Profile, said: &[u8]) -> Option<Nowhere<'_>>
    ensures { option_map plain result ≡ nowhere_said profile (words_of said.now) }
{
    let mut words = Words(said);
    let Some(command) = words.next() else {
        return None;
    };
    let Some(word) = words.next() else {
        return None;
    };
    if is_access(command) {
        nowhere_by(profile, word)
    } else {
        None
    }
}

/// The same by the word that says where.
fn nowhere_by(profile: Profile, word: &[u8]) -> Option<Nowhere<'_>>
    ensures { option_map plain result ≡ nowhere_by profile word.now }
{
    if named(profile, word).is_some() {
        return None;
    }
    match hex_number_in(word) {
        Some(offset) if is_nowhere(profile, offset) => Some(Nowhere {
            offset,
            word: bare(word),
        }),
        _ => None,
    }
}

/// Whether an access is answered where no register lies.
fn is_nowhere(profile: Profile, offset: u32) -> bool
    ensures { result ≡ is_nowhere profile offset }
{
    profile.answers_at(offset) && Reg::of_offset_in(profile, offset).is_none()
}

/// The register that a word may mean, in upper case: the first of these whose name is the word but for one letter, or two that
/// are turned. The word has three letters or more.
pub fn meant(word: &[u8], near: [Reg; 3]) -> Option<Reg>
    ensures { result ≡ find (λ reg. is_meant word.now reg) near }
{
    near.iter().copied().find(|reg| is_meant(word, *reg))
}

/// Whether a register may be meant.
fn is_meant(word: &[u8], reg: Reg) -> bool
    ensures { result ≡ is_meant word.now reg }
{
    word.len() >= LEAST_LETTERS && is_near(word, name(reg).as_str().as_bytes())
}
