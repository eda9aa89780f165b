//! The register that a word means.
ghost use Rattle.std.specs.Prelude.{◌≡◌};
ghost use Rattle.em_prompt.specs.Register.{named, known};

use crate::word::hex_number_in;
use em_names::parse_in;
use em_regs::{Profile, Reg};

/// The register of a profile that a word names, in either case.
pub(crate) fn named(profile: Profile, word: &[u8]) -> Option<Reg>
    ensures { result ≡ named profile word.now }
{
    parse_in(profile, word)
}

/// The register of a profile that a word names, or that lies at the offset that it writes.
pub(crate) fn known(profile: Profile, word: &[u8]) -> Option<Reg>
    ensures { result ≡ known profile word.now }
{
    if let Some(reg) = named(profile, word) {
        return Some(reg);
    }
    match hex_number_in(word) {
        Some(offset) => Reg::of_offset_in(profile, offset),
        None => None,
    }
}
