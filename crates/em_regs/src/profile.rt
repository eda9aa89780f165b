//! The profiles of the adapter.
ghost use Rattle.std.specs.Prelude.{◌≡◌};
ghost use Rattle.em_regs.specs.Table.{answers_at, is_in};

use crate::table::WORD;

/// The registers of the part lie in so many octets.
const REACH: u32 = 0x20000;

/// Which registers an adapter has, and what their accesses do. It is chosen when a machine is made.
#[derive(Clone, Copy, PartialEq, Eq, Debug)]
pub enum Profile {
    /// What a polled driver in user space needs.
    Table,
    /// What the drivers of operating systems need besides.
    Adapter,
}

impl Profile {
    /// Whether another profile has the rows that this one is the first to have.
    #[inline(always)]
    pub fn is_in(self, profile: Profile) -> bool
        ensures { result ≡ is_in self profile }
    {
        matches!(self, Profile::Table) || matches!(profile, Profile::Adapter)
    }

    /// Whether an access of the offset is answered where no register lies there.
    pub fn answers_at(self, offset: u32) -> bool
        ensures { result ≡ answers_at self offset }
    {
        match self {
            Profile::Table => false,
            Profile::Adapter => offset < REACH && offset % WORD == 0,
        }
    }
}
