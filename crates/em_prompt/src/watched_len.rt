//! How many octets are watched.
ghost use Rattle.std.specs.Prelude.{◌≤◌};
ghost use Rattle.em_prompt.specs.Number.{least, most};
ghost use Rattle.em_prompt.specs.declared.number.Number.TheVariants.{Watched};

use crate::fault::Fault;
use crate::number::Number;

/// How many octets of guest memory are watched: 1 to 16.
#[derive(Clone, Copy)]
pub struct WatchedLen {
    octets: u32,
    ghost least: { least Watched ≤ octets },
    ghost most: { octets ≤ most Watched },
}

impl WatchedLen {
    ghost use Rattle.std.specs.Prelude.{◌≡◌, ◌≤◌};
    ghost use Rattle.em_prompt.specs.Number.{least, most};
    ghost use Rattle.em_prompt.specs.Value.{len_so, number_in};
    ghost use Rattle.em_prompt.specs.declared.number.Number.TheVariants.{Watched};

    /// The length that a word writes.
    pub(crate) fn of(word: &[u8]) -> Result<WatchedLen, Fault<'_>>
        ensures { len_so result ≡ number_in Watched word.now }
    {
        let octets = Number::Watched.of(word)?;
        Ok(WatchedLen { octets })
    }

    /// The number.
    pub fn octets(self) -> u32
        ensures octets { result ≡ self.octets }
        ensures least { least Watched ≤ result }
        ensures most { result ≤ most Watched }
    {
        self.octets
    }
}
