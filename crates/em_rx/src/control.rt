//! What a step of the receive engine goes by.
ghost use Rattle.std.specs.Prelude.{◌≡◌};
ghost use Rattle.em_rx.specs.Control.{is_null_at, of_setup};

use em_regs::{Profile, RxSetup};

/// What a step of the receive engine goes by.
#[derive(Clone, Copy, Debug, PartialEq, Eq)]
pub struct RxControl {
    /// The ring, as the registers set it up.
    pub setup: RxSetup,
    /// The adapter's profile. In the second one no octet goes into the buffer of a descriptor with the address 0 (manual,
    /// chapter on packet reception: null descriptor padding).
    pub profile: Profile,
    /// No exact filter takes the oldest frame: PIF is set with its last octet.
    pub inexact: bool,
}

impl RxControl {
    /// That of the first profile, which tells of no frame how it came past the filters.
    pub fn of_setup(setup: RxSetup) -> RxControl
        ensures { result ≡ of_setup setup }
    {
        RxControl {
            setup,
            profile: Profile::Table,
            inexact: false,
        }
    }

    /// Whether no octet goes into the buffer of a descriptor that has this address.
    #[inline(always)]
    #[tactic(auto, unfolding(crate::specs::Control::is_null_at))]
    pub fn is_null_at(&self, address: u64) -> bool
        ensures { result ≡ is_null_at self.now.profile address }
    {
        matches!(self.profile, Profile::Adapter) && address == 0
    }
}
