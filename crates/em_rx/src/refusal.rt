//! Why the receive side refuses.
ghost use Rattle.std.specs.Prelude.{◌≡◌};

use em_mem::MemRefusal;
use std::alloc::{AllocError, AllocFailed};
use thiserror::Error;

/// Why a receive step was not made, or a frame not stored.
#[derive(Clone, Copy, Debug, PartialEq, Eq, Error)]
#[error("{}", self.name())]
pub enum RxRefusal {
    /// The descriptor or its buffer leaves guest memory.
    DmaRange = 4,
    /// A growth was refused.
    Memory = 9,
}

impl RxRefusal {
    ghost use Rattle.em_rx.specs.Refusal.{code_of, name_of};

    /// The refusal's number: 4 for `DmaRange`, 9 for `Memory`.
    pub fn code(self) -> u32
        ensures { result ≡ code_of self }
    {
        self as u32
    }

    /// The refusal's name, as it is printed.
    pub fn name(self) -> &'static str
        ensures { result.now ≡ name_of self }
    {
        match self {
            RxRefusal::DmaRange => "DmaRange",
            RxRefusal::Memory => "Memory",
        }
    }
}

impl From<AllocError> for RxRefusal {
    ghost use Rattle.std.specs.Prelude.{◌≡◌};
    ghost use Rattle.em_rx.specs.declared.refusal.RxRefusal.TheVariants.{Memory};

    ghost from_gives = { λ _ refusal. refusal ≡ Memory };

    fn from(_error: AllocError) -> RxRefusal {
        RxRefusal::Memory
    }
}

impl From<MemRefusal> for RxRefusal {
    ghost use Rattle.std.specs.Prelude.{◌≡◌};
    ghost use Rattle.em_rx.specs.declared.refusal.RxRefusal.TheVariants.{Memory};

    ghost from_gives = { λ _ refusal. refusal ≡ Memory };

    /// A page that is not made is `Memory`: no step asks for memory of another size.
    fn from(_refusal: MemRefusal) -> RxRefusal {
        RxRefusal::Memory
    }
}

impl<T: Drop> From<AllocFailed<T>> for RxRefusal {
    ghost use Rattle.std.specs.Prelude.{◌≡◌};
    ghost use Rattle.em_rx.specs.declared.refusal.RxRefusal.TheVariants.{Memory};

    ghost from_gives = { λ _ refusal. refusal ≡ Memory };

    fn from(_failed: AllocFailed<T>) -> RxRefusal {
        RxRefusal::Memory
    }
}
