//! The driver.
ghost use Rattle.em_driver.specs.Layout.{IsPlaced};

use crate::bus::Bus;
use crate::layout::Layout;
use std::alloc::Global;

/// A polled driver over a bus. It stores its bus and its layout, and the allocator for packets that
/// come; where its rings stand it reads from the device at each call.
#[derive(Drop)]
pub struct E1000<B> {
    pub(crate) bus: B,
    pub(crate) layout: Layout,
    pub(crate) alloc: Global,
    // so that no address of a descriptor or a buffer exceeds 64 bits
    ghost placed: { IsPlaced layout },
}

impl<B: Bus> E1000<B> {
    ghost use Rattle.std.specs.Prelude.{◌≡◌};
    ghost use Rattle.std.specs.Borrow.{Lends, sem};
    ghost use Rattle.em_driver.specs.contracts.driver.E1000.{the_row as driver-row};

    /// The bus, on which others can act between two calls.
    pub fn bus(&mut self) -> &mut B
        ensures value { result.now ≡ self.old.bus }
        ensures* writes_back { sem 𝓛 (Lends (driver-row B.row) B.row self.entry result
            (λ bus. record self.entry.now { bus = bus })) }
    {
        &mut self.bus
    }

    /// The bus, to look at.
    pub fn look_bus(&self) -> &B
        ensures { result.now ≡ self.now.bus }
    {
        &self.bus
    }

    /// The bus, without the driver.
    pub fn into_bus(self) -> B
        ensures { result ≡ self.bus }
    {
        self.bus
    }
}
