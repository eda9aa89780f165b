//! The registers that one event changed.
ghost use Rattle.std.specs.Prelude.{◌≡◌, ◌-◌, ◌<◌, ◌≤◌, true, IfSome, IfNone, length};
ghost use Rattle.em_regs.specs.Table.{IsReg, offset_of};
ghost use Rattle.em_regs.specs.RegFile.{IsStored};
ghost use Rattle.em_journal.specs.Record.{IsRecordAt};
ghost use Rattle.em_watch.specs.Difference.{IsRegisterChange, LeavesAlone, LeavesOffset, LeavesRegisters};

use crate::difference::{Difference, difference_of};
use crate::watch::Watch;
use em_journal::Machine;
use em_regs::{Kind, Profile, Reg};
use em_step::Past;
use std::marker::Model;

/// How many octets a word of the registers' space has.
const WORD: u32 = 4;

/// A register that an event changed.
#[derive(Clone, Copy, PartialEq, Eq, Debug)]
pub struct RegisterChange {
    pub reg: Reg,
    pub difference: Difference,
}

/// The registers that an event changed, from an offset on.
#[derive(Drop)]
pub struct RegisterChanges<'a> {
    machine: &'a Machine,
    back: usize,
    offset: u32,
}

impl<'a> Model for RegisterChanges<'a> {
    ghost use Rattle.std.specs.Prelude.{◌≤◌};
    ghost use Rattle.em_watch.specs.RegisterSearch.{RegisterSearch, IsOfAnEvent, register_search_code};

    ghost Value = { RegisterSearch };

    ghost coded = { register_search_code };

    ghost view = { λ c. record { view = c.machine.now; back = c.back; offset = c.offset } };

    ghost invariant = { λ c. IsOfAnEvent c.machine.now c.back × (c.offset ≤ 0x06000) };
}

impl<'a> RegisterChanges<'a> {
    /// All that it changed.
    pub(crate) fn of(machine: &'a Machine, back: usize) -> RegisterChanges<'a>
        requires some { 0 < back }
        requires there { back ≤ length machine.now.past }
        ensures { result ≡ record { view = machine.now; back = back; offset = 0 } }
    {
        RegisterChanges {
            machine,
            back,
            offset: 0,
        }
    }
}

impl<'a> Iterator for RegisterChanges<'a> {
    type Item = RegisterChange;

    ghost use Rattle.em_watch.specs.RegisterSearch.{GivesRegister, registers_left};

    ghost next_gives = { GivesRegister };

    ghost remaining = { registers_left };

    /// The next register, by offset.
    fn next(&mut self) -> Option<RegisterChange> {
        let change = next_changed(self.machine, self.back, self.offset)?;
        self.offset = change.reg.offset() + 1;
        Some(change)
    }
}

/// The first register from an offset on that an event changed.
fn next_changed(machine: &Machine, back: usize, from: u32) -> Option<RegisterChange>
    requires some { 0 < back }
    requires there { back ≤ length machine.now.past }
    requires within { from ≤ 0x06000 }
    ensures change { IfSome result (IsRegisterChange machine.now back) }
    ensures from { IfSome result (λ change. from ≤ offset_of change.reg) }
    ensures below { IfSome result (λ change. offset_of change.reg < 0x06000) }
    ensures first { IfSome result (λ change. LeavesRegisters machine.now back from (offset_of change.reg)) }
    ensures none { IfNone result (LeavesRegisters machine.now back from 0x06000) }
{
    let Some(past) = machine.record(back - 1) else {
        unreachable!()
    };
    let mut end = past.reach(stored_below(from));
    let mut next = WORD * from.div_ceil(WORD);
    while next < end {
        let Some(offset) = Reg::next_page_with_registers(next) else {
            return None;
        };
        if let Some(change) = changed_at(machine, &past, back, offset) {
            return Some(change);
        }
        // behind the register whose old word the record has there is often none to be seen
        end = end.min(past.reach(stored_at(offset)));
        next = offset + WORD;
    }
    None
}

/// The register at an offset, if it keeps what software writes.
fn stored_at(offset: u32) -> Option<Reg>
    ensures { IfSome result (λ reg. IsStored reg × (offset_of reg ≡ offset)) }
{
    let reg = Reg::of_offset_in(Profile::Adapter, offset)?;
    if reg.row().kind.is_stored() {
        Some(reg)
    } else {
        None
    }
}

/// The register at the offset just below another one, if it keeps what software writes.
fn stored_below(from: u32) -> Option<Reg>
    ensures { IfSome result (λ reg. IsStored reg × (offset_of reg < from)) }
{
    stored_at(from.checked_sub(1)?)
}

/// The register at an offset, if an event changed it, of which this is the record.
fn changed_at(
    machine: &Machine,
    past: &Past<'_>,
    back: usize,
    offset: u32,
) -> Option<RegisterChange>
    requires some { 0 < back }
    requires there { back ≤ length machine.now.past }
    requires record { IsRecordAt machine.now (back - 1) past.now }
    ensures change { IfSome result (IsRegisterChange machine.now back) }
    ensures there { IfSome result (λ change. offset_of change.reg ≡ offset) }
    ensures none { IfNone result (LeavesOffset machine.now back offset) }
{
    // of one that the machine's own profile has not nothing is seen
    let reg = Reg::of_offset_in(Profile::Adapter, offset)?;
    if is_left(past, reg) {
        return None;
    }
    let difference = difference_of(machine, Watch::Register(reg), back)?;
    Some(RegisterChange { reg, difference })
}

/// Whether a record is known to leave a register as it is, without a look at the register. It has no old value of one
/// that keeps what software writes if each of two values stays. An event changes few registers, and most are told so.
#[inline(always)]
fn is_left(past: &Past<'_>, reg: Reg) -> bool
    requires { IsReg reg }
    ensures { result ≡ true → LeavesAlone past.now reg }
{
    match reg.row().kind {
        Kind::Stored => past.register_before(reg, 0) == 0 && past.register_before(reg, 1) == 1,
        _ => false,
    }
}
