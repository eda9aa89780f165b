//! The rules by their names.
ghost use Rattle.std.specs.Prelude.{◌≡◌, find};
ghost use Rattle.std.specs.Str.{bytes_eq};
ghost use Rattle.em_warnings.specs.Said.{is_of, name_of, rule_called, rule_name, said_by};

use crate::said::ALL_RULES;
use crate::warning::Warning;

/// A rule that tells what drivers get wrong.
#[derive(Clone, Copy, PartialEq, Eq, Debug)]
pub enum Rule {
    BitsDropped,
    TailPastRing,
    EnabledBeforeRing,
    DescriptorUnwritten,
    StatusLeft,
    InterruptsBeforeRings,
    RingOutsideMemory,
    BuffersOverlap,
    TailPastHead,
    HeadWhileEnabled,
    WrittenWhileOwned,
    ReadAgain,
}

impl Rule {
    /// The rule that a word names.
    pub fn of(word: &[u8]) -> Option<Rule>
        ensures { result ≡ rule_called word.now }
    {
        ALL_RULES.iter().copied().find(|rule| rule.is_called(word))
    }

    /// Whether a word is its name.
    fn is_called(self, word: &[u8]) -> bool
        ensures { result ≡ bytes_eq word.now (rule_name self) }
    {
        word == self.name().as_bytes()
    }

    /// What it says, of what rules say of one access.
    pub fn said(self, warnings: &[Option<Warning>]) -> Option<Warning>
        ensures { result ≡ said_by self warnings.now }
    {
        match self.first_of(warnings) {
            Some(warning) => warning,
            None => None,
        }
    }

    /// The first that it says, if it says any.
    fn first_of(self, warnings: &[Option<Warning>]) -> Option<Option<Warning>>
        ensures { result ≡ find (is_of self) warnings.now }
    {
        warnings
            .iter()
            .copied()
            .find(|warning| self.is_of(*warning))
    }

    /// Whether it says this.
    fn is_of(self, warning: Option<Warning>) -> bool
        ensures { result ≡ is_of self warning }
    {
        match warning {
            Some(warning) => warning.name().as_bytes() == self.name().as_bytes(),
            None => false,
        }
    }
}
