//! The start of the device.
ghost use Rattle.std.specs.Prelude.{◌≡◌, Some, None, IfOk, IfErr, OnOk};
ghost use Rattle.em_regs.specs.declared.profile.Profile.TheVariants.{Table};
ghost use Rattle.em_driver.specs.Course.{Follows};
ghost use Rattle.em_driver.specs.Driven.{IsGoodFor};
ghost use Rattle.em_driver.specs.Start.{start as start_of, start_events};
ghost use Rattle.em_driver.specs.Started.{StartsInOrder};
ghost use Rattle.em_driver.specs.World.{IsSpared, present};

use crate::bus::Bus;
use crate::driver::E1000;
use crate::layout::Layout;
use crate::outcome::{Cause, StartRefused};
use crate::start_access::Starting;
use std::alloc::Global;

impl<B: Bus> E1000<B> {
    /// Starts the device on a bus: resets it, reads its EEPROM, and makes its rings in guest memory
    /// by `layout`. Answers the driver and how many events it performed, 275 and one for each
    /// descriptor. A device of the first profile is then as its driver keeps it, nothing is queued, and the
    /// frames that were stored since the reset wait.
    ///
    /// Refused, with the bus and the events that it performed: Layout, before any event, where the
    /// layout is not good for the bus's memory; Memory where a growth was refused; Checksum where
    /// the EEPROM's words do not have the sum that they need; Broken where the device does not give
    /// a word of its EEPROM.
    pub fn start(alloc: Global, bus: B, layout: Layout) -> Result<(E1000<B>, u32), StartRefused<B>>
        ensures good { IfOk result (λ started. IsGoodFor (present (B.world bus)) layout) }
        ensures ok { IfOk result (λ started. Follows (B.world bus) (start_of layout) started.1 None
            (B.world started.0.bus)) }
        ensures counted { IfOk result (λ started. started.1 ≡ start_events layout) }
        ensures order { IfOk result (λ started. IsSpared layout (B.world bus).spared
            → (present (B.world bus)).profile ≡ Table → StartsInOrder layout (B.world bus) started.1 (B.world started.0.bus)) }
        ensures layout { IfOk result (λ started. started.0.layout ≡ layout) }
        ensures untouched { IfErr result (λ refused.
            (IsGoodFor (present (B.world bus)) layout → ⊥)
            → (refused.cause ≡ Cause.Layout) × (refused.events ≡ 0) × (refused.bus ≡ bus)) }
        ensures stopped { IfErr result (λ refused. IsGoodFor (present (B.world bus)) layout
            → Follows (B.world bus) (start_of layout) refused.events (Some refused.cause) (B.world refused.bus)) }
    {
        if layout.is_good(bus.base(), bus.end()) {
            let driver = E1000 { bus, layout, alloc };
            let mut starting = Starting { driver, events: 0 };
            match starting.initialize() {
                Ok(()) => Ok((starting.driver, starting.events)),
                Err(cause) => Err(StartRefused {
                    bus: starting.driver.into_bus(),
                    cause,
                    events: starting.events,
                }),
            }
        } else {
            Err(StartRefused {
                bus,
                cause: Cause::Layout,
                events: 0,
            })
        }
    }
}

impl<B: Bus> Starting<B> {
    /// Performs the parts of a start, one after the other.
    fn initialize(&mut self) -> Result<(), Cause>
        requires { self.old.events ≡ 0 }
        ensures ok { OnOk result (Follows (B.world self.old.driver.bus) (start_of self.old.driver.layout)
            self.new.events None (B.world self.new.driver.bus)) }
        ensures counted { OnOk result (self.new.events ≡ start_events self.old.driver.layout) }
        ensures err { IfErr result (λ why. Follows (B.world self.old.driver.bus) (start_of self.old.driver.layout)
            self.new.events (Some why) (B.world self.new.driver.bus)) }
        ensures layout { self.new.driver.layout ≡ self.old.driver.layout }
    {
        self.global_reset()?;
        let eeprom = self.eeprom()?;
        self.receive_address(&eeprom);
        self.multicast_table();
        self.receive_ring()?;
        self.transmit_ring()?;
        Ok(())
    }
}
