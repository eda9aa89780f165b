//! What a step of the transmit engine goes by.
ghost use Rattle.std.specs.Prelude.{◌≡◌};
ghost use Rattle.em_tx.specs.Control.{is_still, of_setup};

use em_regs::{Profile, TxSetup};

/// What a step of the transmit engine goes by.
#[derive(Clone, Copy, Debug, PartialEq, Eq)]
pub struct TxControl {
    /// The ring, as the registers set it up.
    pub setup: TxSetup,
    /// The adapter's profile. In the second one a descriptor with the address 0 transfers nothing, and one descriptor has
    /// at most 16,288 octets (manual, chapter on transmit description).
    pub profile: Profile,
    /// Nothing is sent, since the link is down (the second profile).
    pub halted: bool,
}

impl TxControl {
    /// That of the first profile, in which the link halts nothing.
    pub fn of_setup(setup: TxSetup) -> TxControl
        ensures { result ≡ of_setup setup }
    {
        TxControl {
            setup,
            profile: Profile::Table,
            halted: false,
        }
    }

    /// Nothing is to be done: no descriptor is the adapter's, or nothing is sent.
    #[inline(always)]
    pub fn is_still(&self) -> bool
        ensures { result ≡ is_still self.now }
    {
        self.setup.ring().is_idle() || self.halted
    }
}
