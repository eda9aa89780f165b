//! The rings as the registers set them up.
ghost use Rattle.std.specs.Prelude.{◌≡◌};
ghost use Rattle.em_regs.specs.Setup.{rx_setup, tx_setup};
ghost use Rattle.em_step.specs.Engines.{is_halted};

use crate::machine::Machine;
use em_regs::{RxSetup, TxSetup};

impl Machine {
    /// The receive ring.
    pub fn ring_rx(&self) -> RxSetup
        ensures { result ≡ rx_setup self.now.present.registers }
    {
        self.adapter.ring_rx()
    }

    /// The transmit ring.
    pub fn ring_tx(&self) -> TxSetup
        ensures { result ≡ tx_setup self.now.present.registers }
    {
        self.adapter.ring_tx()
    }

    /// Nothing is sent: in the second profile while the link is down, unless RCTL.LBM gives back what is sent.
    pub fn is_halted(&self) -> bool
        ensures { result ≡ is_halted self.now.present }
    {
        self.adapter.is_halted()
    }
}
