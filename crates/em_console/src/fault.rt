//! Why a console failed.
ghost use Rattle.std.specs.Prelude.{◌≡◌};
ghost use Rattle.em_console.specs.Fault.{code_of, name_of};

use thiserror::Error;

/// Why a console failed, or a session over it.
#[derive(Clone, Copy, Debug, PartialEq, Eq, Error)]
#[error("{}", self.name())]
pub enum ConsoleFault {
    /// The reader failed.
    Read = 20,
    /// The writer failed, or took no octet.
    Write = 21,
    /// Memory was refused for a line or an answer.
    Memory = 9,
}

impl ConsoleFault {
    /// The number of the fault: 20 for `Read`, 21 for `Write`, 9 for `Memory`.
    pub fn code(self) -> u32
        ensures { result ≡ code_of self }
    {
        self as u32
    }

    /// The name of the fault, as it is printed.
    pub fn name(self) -> &'static str
        ensures { result.now ≡ name_of self }
    {
        match self {
            ConsoleFault::Read => "Read",
            ConsoleFault::Write => "Write",
            ConsoleFault::Memory => "Memory",
        }
    }
}
