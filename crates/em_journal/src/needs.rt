//! Which octets of guest memory the next step of an engine reads, and which it writes.
ghost use Rattle.std.specs.Prelude.{◌≡◌};
ghost use Rattle.em_mem.specs.Needs.{AreHeld};
ghost use Rattle.em_step.specs.Needs.{rx_needs, tx_needs};

use crate::machine::Machine;
use em_mem::Needs;

impl Machine {
    /// What the next step of the receive engine reads of guest memory, and what it writes there.
    pub fn needs_rx(&self) -> Needs
        ensures needs { result ≡ rx_needs self.now.present }
        ensures reads { AreHeld self.now.present.base self.now.present.memory result.reads }
        ensures writes { AreHeld self.now.present.base self.now.present.memory result.writes }
    {
        self.adapter.needs_rx()
    }

    /// The same of the transmit engine.
    pub fn needs_tx(&self) -> Needs
        ensures needs { result ≡ tx_needs self.now.present }
        ensures reads { AreHeld self.now.present.base self.now.present.memory result.reads }
        ensures writes { AreHeld self.now.present.base self.now.present.memory result.writes }
    {
        self.adapter.needs_tx()
    }
}
