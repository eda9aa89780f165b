//! Why octets make no machine.

use em_mem::MemRefusal;
use std::alloc::AllocError;
use thiserror::Error;

/// Why no machine was loaded. Where several causes are there, the first of them is named.
#[derive(Clone, Copy, PartialEq, Eq, Debug, Error)]
pub enum StoredRefusal {
    /// The octets do not begin as those of a machine do.
    #[error("Magic")]
    Magic,
    /// They are of another version, or end before it.
    #[error("Version")]
    Version,
    /// They are not as many as they say: some were cut off, or added.
    #[error("Length")]
    Length,
    /// They are not those that were written: their check sum differs.
    #[error("Sum")]
    Sum,
    /// No machine is stored so.
    #[error("Value")]
    Value,
    /// Memory was refused.
    #[error("Memory")]
    Memory,
}

impl From<AllocError> for StoredRefusal {
    ghost use Rattle.std.specs.Prelude.{◌≡◌};
    ghost use Rattle.em_stored.specs.declared.refusal.StoredRefusal.TheVariants.{Memory};

    ghost from_gives = { λ _ refusal. refusal ≡ Memory };

    fn from(_error: AllocError) -> StoredRefusal {
        StoredRefusal::Memory
    }
}

impl From<MemRefusal> for StoredRefusal {
    ghost use Rattle.std.specs.Prelude.{◌≡◌};
    ghost use Rattle.em_mem.specs.declared.refusal.MemRefusal.TheVariants as mem;
    ghost use Rattle.em_stored.specs.declared.refusal.StoredRefusal.TheVariants.{Memory};

    ghost from_gives = { λ from refusal. from ≡ mem.Memory → refusal ≡ Memory };

    fn from(error: MemRefusal) -> StoredRefusal {
        match error {
            MemRefusal::Size => StoredRefusal::Value,
            MemRefusal::Memory => StoredRefusal::Memory,
        }
    }
}
