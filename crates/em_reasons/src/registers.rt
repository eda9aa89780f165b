//! The registers of a machine that keep what software writes.
ghost use Rattle.std.specs.Prelude.{◌≡◌, IsTrue};
ghost use Rattle.em_regs.specs.RegFile.{IsStored};
ghost use Rattle.em_regs.specs.Setup.{has, value_of};
ghost use Rattle.em_regs.specs.Table.{has_reg};

use em_journal::Machine;
use em_regs::{Profile, Reg, RegFile};

/// All of them.
pub(crate) fn registers(machine: &Machine) -> &RegFile
    ensures { result.now ≡ machine.now.present.registers }
{
    machine.adapter().registers()
}

/// What a register holds that each profile has.
pub(crate) fn value_of(machine: &Machine, reg: Reg) -> u32
    requires stored { IsStored reg }
    requires each { IsTrue (has_reg Profile.Table reg) }
    ensures { result ≡ value_of machine.now.present.registers reg }
{
    // each register lies at its offset
    machine.look(reg.offset()).unwrap_or(0)
}

/// Whether a register that each profile has has all bits of a mask set.
pub(crate) fn has(machine: &Machine, reg: Reg, mask: u32) -> bool
    requires stored { IsStored reg }
    requires each { IsTrue (has_reg Profile.Table reg) }
    ensures { result ≡ has (value_of machine.now.present.registers reg) mask }
{
    value_of(machine, reg) & mask == mask
}
