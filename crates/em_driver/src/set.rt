//! Writes of registers that are not refused.
ghost use Rattle.std.specs.Prelude.{◌≡◌, false};
ghost use Rattle.em_regs.specs.Table.{IsRegOf, offset_of};
ghost use Rattle.em_step.specs.Access.{is_reset};
ghost use Rattle.em_step.specs.Event.{writes};
ghost use Rattle.em_step.specs.declared.event.Answer.TheVariants.{Done};
ghost use Rattle.em_driver.specs.World.{Accesses};

use crate::bus::Bus;
use crate::driver::E1000;
use em_regs::{Profile, Reg};

impl<B: Bus> E1000<B> {
    /// Writes a register, but no reset.
    pub(crate) fn set(&mut self, reg: Reg, value: u32)
        requires register { IsRegOf Profile.Table reg }
        requires stays { is_reset reg value ≡ false }
        ensures event { Accesses (B.world self.old.bus) (writes (offset_of reg) value) Done (B.world self.new.bus) }
        ensures layout { self.new.layout ≡ self.old.layout }
    {
        let Ok(()) = self.bus.write(reg, value) else {
            unreachable!();
        };
    }
}
