//! Why a journal is not made, and why nothing is taken back.
ghost use Rattle.std.specs.Prelude.{◌≡◌};
ghost use Rattle.em_journal.specs.Refusal.{code_of, code_of_empty, name_of, name_of_empty};

use thiserror::Error;

/// Why no machine was made.
#[derive(Clone, Copy, PartialEq, Eq, Debug, Error)]
#[error("{}", self.name())]
pub enum JournalRefusal {
    /// The budget lies outside 65,536 to 16,777,216 octets of cost.
    Budget = 24,
    /// The memory of the journal's places was refused.
    Memory = 9,
}

impl JournalRefusal {
    /// The number of the refusal (this project's profile).
    pub fn code(self) -> u32
        ensures { result ≡ code_of self }
    {
        self as u32
    }

    /// The name of the refusal, as it is printed.
    pub fn name(self) -> &'static str
        ensures { result.now ≡ name_of self }
    {
        match self {
            JournalRefusal::Budget => "Budget",
            JournalRefusal::Memory => "Memory",
        }
    }
}

/// The journal holds no event that could be taken back.
#[derive(Clone, Copy, PartialEq, Eq, Debug, Error)]
#[error("{}", self.name())]
pub struct Empty;

impl Empty {
    /// The number of the refusal (this project's profile).
    pub fn code(self) -> u32
        ensures { result ≡ code_of_empty }
    {
        8
    }

    /// The name of the refusal, as it is printed.
    pub fn name(self) -> &'static str
        ensures { result.now ≡ name_of_empty }
    {
        "Empty"
    }
}
