//! Loopback: whether what is sent comes back (manual, chapters on register descriptions and on the PHY).
ghost use Rattle.std.specs.Prelude.{◌≡◌};
ghost use Rattle.em_step.specs.Cells.{shows};
ghost use Rattle.em_step.specs.Loops.{loops, mac_loops, phy_loops};

use crate::adapter::Adapter;
use em_regs::{Profile, Reg};

/// The lowest bit of RCTL.LBM, a field of two bits.
const LBM_BIT: u32 = 0x0000_0040;

/// The bit of the PHY's word 0 that loops.
const PHY_LOOPBACK_BIT: u16 = 0x4000;

impl Adapter {
    /// Whether frames that are sent come back, by RCTL.LBM or by the PHY's word 0: never in the first profile. A sent
    /// frame is on the wire here too, and the caller, who carries the wire, lets it arrive (this project's profile).
    pub fn loops(&self) -> bool
        ensures { result ≡ loops (shows self.now) }
    {
        matches!(self.profile(), Profile::Adapter) && (self.mac_loops() || self.phy_loops())
    }

    /// RCTL.LBM is set.
    pub(crate) fn mac_loops(&self) -> bool
        ensures { result ≡ mac_loops (shows self.now) }
    {
        self.registers.look(Reg::Rctl) / LBM_BIT % 4 != 0
    }

    /// The PHY's word 0 says so.
    fn phy_loops(&self) -> bool
        ensures { result ≡ phy_loops (shows self.now) }
    {
        self.phy.words()[0] / PHY_LOOPBACK_BIT % 2 == 1
    }
}
