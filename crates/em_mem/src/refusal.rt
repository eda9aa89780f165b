//! Why there is no memory.
ghost use Rattle.std.specs.Prelude.{◌≡◌};

use std::alloc::AllocError;
use thiserror::Error;

/// Why guest memory was not made, or a page of it.
#[derive(Clone, Copy, Debug, PartialEq, Eq, Error)]
#[error("{}", self.name())]
pub enum MemRefusal {
    /// Memory can not have that size, or not from that address on.
    Size = 1,
    /// A growth was refused.
    Memory = 9,
}

impl MemRefusal {
    ghost use Rattle.em_mem.specs.MemRefusal.{code_of, name_of};

    /// The refusal's number: 1 for `Size`, 9 for `Memory`.
    pub fn code(self) -> u32
        ensures { result ≡ code_of self }
    {
        self as u32
    }

    /// The refusal's name, as it is printed.
    pub fn name(self) -> &'static str
        ensures { result.now ≡ name_of self }
    {
        match self {
            MemRefusal::Size => "Size",
            MemRefusal::Memory => "Memory",
        }
    }
}

impl From<AllocError> for MemRefusal {
    ghost use Rattle.std.specs.Prelude.{◌≡◌};
    ghost use Rattle.em_mem.specs.declared.refusal.MemRefusal.TheVariants.{Memory};

    ghost from_gives = { λ _ refusal. refusal ≡ Memory };

    fn from(_error: AllocError) -> MemRefusal {
        MemRefusal::Memory
    }
}
