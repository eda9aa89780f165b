//! What a command line asks for, and why one is refused.
ghost use Rattle.std.specs.Prelude.{◌≡◌};
ghost use Rattle.std.specs.Option.{option_map};
ghost use Rattle.clap.specs.Words.{kind_of};
ghost use Rattle.em_options.specs.Options.{settings_of};
ghost use Rattle.em_options.specs.Refused.{name_of, told_by_kind, told_error};

use clap::Error as ParserError;
use clap::error::ErrorKind;
use em_journal::Settings;
use em_regs::Profile;
use thiserror::Error;

/// What the words of a command line ask for. That the size and the budget are allowed is decided
/// where a machine is made of them.
#[derive(Clone, Copy)]
pub struct Options<'a> {
    /// How many octets the guest's memory is to have.
    pub memory: u64,
    /// The journal's budget, in octets of cost.
    pub budget: u64,
    /// The adapter's Ethernet address, octet 0 first.
    pub mac: [u8; 6],
    /// The name of the script's file; without one the script is on standard input.
    pub script: Option<&'a str>,
}

impl Options<'_> {
    /// What the machine is made of: it is of the first profile, and its memory begins at address 0.
    pub fn settings(&self) -> Settings
        ensures { result ≡ settings_of self.now }
    {
        Settings {
            profile: Profile::Table,
            base: 0,
            memory: self.memory,
            budget: self.budget,
            mac: self.mac,
        }
    }
}

/// Why a command line is refused.
#[derive(Debug, Drop, Error)]
#[error("{}", self.name())]
pub enum OptionsRefused {
    /// The parser refused the words, or was asked for help, or had no memory: it says which, and
    /// has the text for the user.
    Parser(ParserError),
    /// The text after `--mac` is not 12 hexadecimal digits.
    Mac,
}

impl OptionsRefused {
    /// The name of the refusal, as it is printed.
    pub fn name(&self) -> &'static str
        ensures { result.now ≡ name_of self.now }
    {
        match self {
            OptionsRefused::Parser(_) => "Parser",
            OptionsRefused::Mac => "Mac",
        }
    }

    /// The parser's error where it has a text for the user: help or the version, or what is wrong with
    /// the words. Of want of memory it says nothing.
    pub fn told(&self) -> Option<&ParserError>
        ensures { option_map (λ error. error.now) result ≡ told_error self.now }
    {
        match self {
            OptionsRefused::Parser(error) => told_by_kind(error),
            OptionsRefused::Mac => None,
        }
    }
}

/// The error where the parser has a text for it.
fn told_by_kind(error: &ParserError) -> Option<&ParserError>
    ensures { option_map (λ told. told.now) result ≡ told_by_kind (kind_of error.now) error.now }
{
    match error.kind() {
        ErrorKind::OutOfMemory => None,
        _ => Some(error),
    }
}
