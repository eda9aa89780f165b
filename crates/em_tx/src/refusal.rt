//! Why a step was refused.
ghost use Rattle.std.specs.Prelude.{◌≡◌};
ghost use Rattle.em_tx.specs.Refusal.{code_of, name_of};

use std::alloc::AllocError;
use thiserror::Error;

/// Why a step of the transmit engine was refused. It then changed nothing that is shown.
#[derive(Clone, Copy, PartialEq, Eq, Debug, Error)]
#[error("{}", self.name())]
pub enum TxRefusal {
    /// The descriptor or its buffer leaves guest memory.
    DmaRange = 4,
    /// The descriptor has DEXT: it is of a format that this model leaves out.
    Extended = 5,
    /// More than 16,380 octets would be gathered (this project's profile).
    TooLong = 6,
    /// A growth was refused.
    Memory = 9,
}

impl TxRefusal {
    /// The refusal's number: 4 for `DmaRange`, 5 for `Extended`, 6 for `TooLong`, 9 for `Memory`.
    pub fn code(self) -> u32
        ensures { result ≡ code_of self }
    {
        self as u32
    }

    /// The refusal's name, as it is printed.
    pub fn name(self) -> &'static str
        ensures { result.now ≡ name_of self }
    {
        match self {
            TxRefusal::DmaRange => "DmaRange",
            TxRefusal::Extended => "Extended",
            TxRefusal::TooLong => "TooLong",
            TxRefusal::Memory => "Memory",
        }
    }
}

impl From<AllocError> for TxRefusal {
    ghost use Rattle.std.specs.Prelude.{◌≡◌};
    ghost use Rattle.em_tx.specs.declared.refusal.TxRefusal.TheVariants.{Memory};

    ghost from_gives = { λ _ refusal. refusal ≡ Memory };

    fn from(_error: AllocError) -> TxRefusal {
        TxRefusal::Memory
    }
}
