//! Numbers that words write in decimal.
ghost use Rattle.std.specs.Prelude.{◌≡◌, ◌≤◌, IfOk};
ghost use Rattle.em_prompt.specs.Number.{least, most};
ghost use Rattle.em_prompt.specs.Value.{kept_number_in, kept_so, number_in, read_so, within};

use crate::fault::Fault;
use crate::kept::Kept;
use crate::kind::Kind;
use em_text::decimal_number;

/// A number, by what it counts.
#[derive(Clone, Copy)]
pub enum Number {
    /// Octets that are shown: 1 to 16,384.
    Peeked,
    /// Octets that are watched: 1 to 16.
    Watched,
    /// Packets: 0 to 1,024.
    Packets,
    /// Events or lines: 1 to 65,536.
    Count,
    /// A line, by its number from 1 on.
    Line,
    /// An event, by how many are performed then.
    Event,
    /// One of several, by its place from 0 on.
    Index,
    /// A word of the PHY: 0 to 31.
    Word,
}

impl Number {
    /// The least that it may be.
    pub fn least(self) -> u32
        ensures { result ≡ least self }
    {
        match self {
            Number::Packets | Number::Event | Number::Index | Number::Word => 0,
            Number::Peeked | Number::Watched | Number::Count | Number::Line => 1,
        }
    }

    /// The most that it may be.
    pub fn most(self) -> u32
        ensures { result ≡ most self }
    {
        match self {
            Number::Peeked => 16_384,
            Number::Watched => 16,
            Number::Packets => 1_024,
            Number::Count => 65_536,
            Number::Line | Number::Event | Number::Index => 9_999_999,
            Number::Word => 31,
        }
    }

    /// The number of this kind that a word writes.
    pub(crate) fn of(self, word: &[u8]) -> Result<u32, Fault<'_>>
        ensures number { read_so result ≡ number_in self word.now }
        ensures within { IfOk result (λ number. (least self ≤ number) × (number ≤ most self)) }
    {
        match decimal_number(word) {
            Some(number) => self.within(number),
            None => Err(Fault::No(Kind::Number(self))),
        }
    }

    /// This number, where it may be one of this kind.
    pub(crate) fn within<'a>(self, number: u32) -> Result<u32, Fault<'a>>
        ensures number { read_so result ≡ within self number }
        ensures within { IfOk result (λ number. (least self ≤ number) × (number ≤ most self)) }
    {
        if self.least() <= number && number <= self.most() {
            Ok(number)
        } else {
            Err(Fault::No(Kind::Number(self)))
        }
    }

    /// The same as it is kept for em_bench.
    pub(crate) fn kept(self, word: &[u8]) -> Result<Kept<'_>, Fault<'_>>
        ensures { kept_so result ≡ kept_number_in self word.now }
    {
        match self.of(word) {
            Ok(_) => Ok(Kept::Word(word)),
            Err(fault) => Err(fault),
        }
    }
}
