//! Why a run stopped.
ghost use Rattle.std.specs.Prelude.{◌≡◌};
ghost use Rattle.em_script.specs.Fault.{code_of, name_of};

use thiserror::Error;

/// Why a run stopped.
#[derive(Clone, Copy, Debug, PartialEq, Eq, Error)]
#[error("{}", self.name())]
pub enum BenchFault {
    /// The reader failed.
    Read = 20,
    /// The writer failed, or took no octet.
    Write = 21,
    /// The script has more than 4,194,304 octets.
    TooLarge = 22,
    /// Memory was refused while the script was read, or for the octets of a line.
    Memory = 9,
}

impl BenchFault {
    /// The number of the fault: 20 for `Read`, 21 for `Write`, 22 for `TooLarge`, 9 for `Memory`.
    pub fn code(self) -> u32
        ensures { result ≡ code_of self }
    {
        self as u32
    }

    /// The name of the fault, as it is printed.
    pub fn name(self) -> &'static str
        ensures { result.now ≡ name_of self }
    {
        match self {
            BenchFault::Read => "Read",
            BenchFault::Write => "Write",
            BenchFault::TooLarge => "TooLarge",
            BenchFault::Memory => "Memory",
        }
    }
}
