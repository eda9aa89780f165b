//! The accesses of a start, which are counted.
ghost use Rattle.std.specs.Prelude.{◌≡◌, ◌+◌, ◌<◌, false, OnOk, IfErr};
ghost use Rattle.em_regs.specs.Table.{IsRegOf, offset_of};
ghost use Rattle.em_step.specs.Access.{is_reset};
ghost use Rattle.em_step.specs.Event.{reads};
ghost use Rattle.em_step.specs.declared.event.Answer.TheVariants.{Value};
ghost use Rattle.em_driver.specs.World.{Accesses};
ghost use Rattle.em_driver.specs.Course as course;
ghost use Rattle.em_driver.specs.Start.{Part, Performs, Stops, memory, device_reset};

use crate::bus::Bus;
use crate::driver::E1000;
use crate::outcome::{Cause, cause_of};
use bitflags::Flags;
use em_regs::{Ctrl, Profile, Reg};

/// A driver that is being started, with the events that it has performed so far.
#[derive(Drop)]
pub(crate) struct Starting<B> {
    pub(crate) driver: E1000<B>,
    pub(crate) events: u32,
}

impl<B: Bus> Starting<B> {
    /// Reads a register.
    pub(crate) fn read(&mut self, reg: Reg) -> u32
        requires register { IsRegOf Profile.Table reg }
        requires few { self.old.events < 0xFFFF_FFFF }
        ensures event { Accesses (B.world self.old.driver.bus) (reads (offset_of reg)) (Value result)
            (B.world self.new.driver.bus) }
        ensures counted { self.new.events ≡ self.old.events + 1 }
        ensures layout { self.new.driver.layout ≡ self.old.driver.layout }
    {
        let value = self.driver.bus.read(reg);
        self.events += 1;
        value
    }

    /// Writes a register, but no reset.
    pub(crate) fn write(&mut self, reg: Reg, value: u32)
        requires register { IsRegOf Profile.Table reg }
        requires stays { is_reset reg value ≡ false }
        requires few { self.old.events < 0xFFFF_FFFF }
        ensures performs { Performs (B.world self.old.driver.bus) (course.write reg value) 1
            (B.world self.new.driver.bus) }
        ensures counted { self.new.events ≡ self.old.events + 1 }
        ensures layout { self.new.driver.layout ≡ self.old.driver.layout }
    {
        self.driver.set(reg, value);
        self.events += 1;
    }

    /// Resets the device. Refused only as Memory.
    pub(crate) fn reset(&mut self) -> Result<(), Cause>
        requires few { self.old.events < 0xFFFF_FFFF }
        ensures ok { OnOk result (Performs (B.world self.old.driver.bus) device_reset 1 (B.world self.new.driver.bus)) }
        ensures counted { OnOk result (self.new.events ≡ self.old.events + 1) }
        ensures err { IfErr result (λ why. Stops (B.world self.old.driver.bus) device_reset self.old.events why
            (B.world self.new.driver.bus) self.new.events) }
        ensures layout { self.new.driver.layout ≡ self.old.driver.layout }
    {
        match self.driver.bus.write(Reg::Ctrl, Ctrl::RST.bits()) {
            Ok(()) => {
                self.events += 1;
                Ok(())
            }
            Err(_) => Err(Cause::Memory),
        }
    }

    /// Writes octets to memory, from an address on. Refused as Memory where it was memory, and as
    /// Broken otherwise.
    pub(crate) fn poke(&mut self, addr: u64, octets: &[u8]) -> Result<(), Cause>
        requires few { self.old.events < 0xFFFF_FFFF }
        ensures ok { OnOk result (Performs (B.world self.old.driver.bus) (memory addr octets.now) 1
            (B.world self.new.driver.bus)) }
        ensures counted { OnOk result (self.new.events ≡ self.old.events + 1) }
        ensures err { IfErr result (λ why. Stops (B.world self.old.driver.bus) (memory addr octets.now)
            self.old.events why (B.world self.new.driver.bus) self.new.events) }
        ensures layout { self.new.driver.layout ≡ self.old.driver.layout }
    {
        match self.driver.bus.poke(addr, octets) {
            Ok(()) => {
                self.events += 1;
                Ok(())
            }
            Err(refusal) => Err(cause_of(refusal)),
        }
    }
}
