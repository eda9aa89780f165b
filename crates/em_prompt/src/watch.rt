//! What is watched, as words say it.
ghost use Rattle.std.specs.Prelude.{◌≡◌};
ghost use Rattle.std.specs.Option.{option_map};
ghost use Rattle.em_prompt.specs.Watch.{is_phy, plain, watched};

use crate::register::named;
use crate::watched_len::WatchedLen;
use em_phy::PhyWord;
use em_regs::{Profile, Reg};
use em_text::is_name;

/// What is watched.
#[derive(Clone, Copy)]
pub enum Watch {
    Register(Reg),
    /// So many octets of guest memory, from an address on.
    Octets(u64, WatchedLen),
    /// The interrupt line.
    Line,
    /// The link.
    Link,
    /// How many frames lie in the FIFO.
    Frames,
    /// How many frames were sent.
    Sent,
    /// A word of the PHY.
    Phy(PhyWord),
}

/// Whether a word is PHY, behind which the number of one of its words stands.
pub(crate) fn is_phy(word: &[u8]) -> bool
    ensures { result ≡ is_phy word.now }
{
    is_name(word, b"PHY") || is_name(word, b"phy")
}

/// What one word says is watched; a register of a profile by its name.
pub(crate) fn watched(profile: Profile, word: &[u8]) -> Option<Watch>
    ensures { option_map plain result ≡ watched profile word.now }
{
    if is_name(word, b"line") {
        return Some(Watch::Line);
    }
    if is_name(word, b"link") {
        return Some(Watch::Link);
    }
    if is_name(word, b"frames") {
        return Some(Watch::Frames);
    }
    if is_name(word, b"sent") {
        return Some(Watch::Sent);
    }
    match named(profile, word) {
        Some(reg) => Some(Watch::Register(reg)),
        None => None,
    }
}
