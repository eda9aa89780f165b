//! Why an event is refused.
ghost use Rattle.std.specs.Prelude.{◌≡◌};
ghost use Rattle.em_step.specs.Refusal.{code_of, name_of};

use em_rx::RxRefusal;
use em_tx::TxRefusal;
use std::alloc::{AllocError, AllocFailed};
use thiserror::Error;

/// Why an event was refused. Where several causes are there, the first of them is named.
#[derive(Clone, Copy, PartialEq, Eq, Debug, Error)]
#[error("{}", self.name())]
pub enum Refusal {
    /// No register lies at the offset.
    NoRegister = 1,
    /// The range leaves guest memory.
    Range = 2,
    /// A memory write outside 1 to 16,384 octets, or a frame outside 14 to 20,000.
    Length = 3,
    /// A descriptor or its buffer leaves guest memory.
    DmaRange = 4,
    /// A transmit descriptor is extended (DEXT).
    Extended = 5,
    /// The gathered octets would exceed 16,380.
    TooLong = 6,
    /// A growth was refused.
    Memory = 9,
}

impl Refusal {
    /// The number of the refusal (this project's profile).
    pub fn code(self) -> u32
        ensures { result ≡ code_of self }
    {
        self as u32
    }

    /// The name of the refusal, as it is printed.
    pub fn name(self) -> &'static str
        ensures { result.now ≡ name_of self }
    {
        match self {
            Refusal::NoRegister => "NoRegister",
            Refusal::Range => "Range",
            Refusal::Length => "Length",
            Refusal::DmaRange => "DmaRange",
            Refusal::Extended => "Extended",
            Refusal::TooLong => "TooLong",
            Refusal::Memory => "Memory",
        }
    }
}

impl From<AllocError> for Refusal {
    ghost use Rattle.std.specs.Prelude.{◌≡◌};
    ghost use Rattle.em_step.specs.declared.refusal.Refusal.TheVariants.{Memory};

    ghost from_gives = { λ _ e. e ≡ Memory };

    fn from(_refused: AllocError) -> Refusal {
        Refusal::Memory
    }
}

impl<T: Drop> From<AllocFailed<T>> for Refusal {
    ghost use Rattle.std.specs.Prelude.{◌≡◌};
    ghost use Rattle.em_step.specs.declared.refusal.Refusal.TheVariants.{Memory};

    ghost from_gives = { λ _ e. e ≡ Memory };

    fn from(_refused: AllocFailed<T>) -> Refusal {
        Refusal::Memory
    }
}

impl From<RxRefusal> for Refusal {
    ghost use Rattle.std.specs.Prelude.{◌≡◌};
    ghost use Rattle.em_step.specs.Engines.{rx_refused};

    ghost from_gives = { λ refusal e. e ≡ rx_refused refusal };

    fn from(refused: RxRefusal) -> Refusal {
        match refused {
            RxRefusal::DmaRange => Refusal::DmaRange,
            RxRefusal::Memory => Refusal::Memory,
        }
    }
}

impl From<TxRefusal> for Refusal {
    ghost use Rattle.std.specs.Prelude.{◌≡◌};
    ghost use Rattle.em_step.specs.Engines.{tx_refused};

    ghost from_gives = { λ refusal e. e ≡ tx_refused refusal };

    fn from(refused: TxRefusal) -> Refusal {
        match refused {
            TxRefusal::DmaRange => Refusal::DmaRange,
            TxRefusal::Extended => Refusal::Extended,
            TxRefusal::TooLong => Refusal::TooLong,
            TxRefusal::Memory => Refusal::Memory,
        }
    }
}
