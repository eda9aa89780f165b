//! How many events a call of a driver performed.
ghost use Rattle.std.specs.Prelude.{◌≡◌, ◌<◌};

use std::marker::Model;

/// How many events a call of a driver performed: its own, and those of the turns that fell into it.
#[derive(Drop)]
pub(crate) struct CallEvents {
    pub(crate) own: u32,
    pub(crate) others: u32,
}

impl Model for CallEvents {
    ghost use Rattle.std.specs.Prelude.{ℕ, ◌+◌};
    ghost use Rattle.std.specs.Coded.{coded_ℕ};

    ghost Value = { ℕ };

    ghost coded = { coded_ℕ };

    ghost view = { λ e. e.own + e.others };
}

impl CallEvents {
    /// All of them.
    pub(crate) fn all(&self) -> u64
        ensures value { result ≡ self.now }
        ensures few { result < 0x2_0000_0000 }
    {
        u64::from(self.own) + u64::from(self.others)
    }
}
