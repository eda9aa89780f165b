//! What one event did.
ghost use Rattle.std.specs.Prelude.{◌≡◌, ◌<◌, ◌≤◌, IfSome, IfNone, length};
ghost use Rattle.em_watch.specs.Difference.{IsDifference, LeavesAsItIs};

use crate::difference::{Difference, difference_of};
use crate::octets::MemoryChanges;
use crate::registers::RegisterChanges;
use crate::watch::Watch;
use em_journal::Machine;
use std::marker::Model;

/// What an event did: the differences between the state just before it and the state just after it.
#[derive(Drop)]
pub struct Effect<'a> {
    machine: &'a Machine,
    back: usize,
}

impl<'a> Model for Effect<'a> {
    ghost use Rattle.em_watch.specs.Effect.{Effect, effect_code};
    ghost use Rattle.em_watch.specs.RegisterSearch.{IsOfAnEvent};

    ghost Value = { Effect };

    ghost coded = { effect_code };

    ghost view = { λ e. record { view = e.machine.now; back = e.back } };

    ghost invariant = { λ e. IsOfAnEvent e.machine.now e.back };
}

/// What an event did. So many steps back lead to just before it: the newest is 1.
pub fn what(machine: &Machine, back: usize) -> Effect<'_>
    requires some { 0 < back }
    requires there { back ≤ length machine.now.past }
    ensures { result ≡ record { view = machine.now; back = back } }
{
    Effect { machine, back }
}

impl<'a> Effect<'a> {
    /// The registers that it changed, by offset.
    pub fn registers(&self) -> RegisterChanges<'a>
        ensures { result ≡ record { view = self.now.view; back = self.now.back; offset = 0 } }
    {
        RegisterChanges::of(self.machine, self.back)
    }

    /// The octets of guest memory that it changed, by address.
    pub fn octets(&self) -> MemoryChanges<'a>
        ensures { result ≡ record { view = self.now.view; back = self.now.back; addr = 0 } }
    {
        MemoryChanges::of(self.machine, self.back)
    }

    /// What it did to the interrupt line.
    pub fn line(&self) -> Option<Difference>
        ensures difference { IfSome result (IsDifference Watch.Line self.now.view self.now.back) }
        ensures none { IfNone result (LeavesAsItIs Watch.Line self.now.view self.now.back) }
    {
        difference_of(self.machine, Watch::Line, self.back)
    }

    /// What it did to the link.
    pub fn link(&self) -> Option<Difference>
        ensures difference { IfSome result (IsDifference Watch.Link self.now.view self.now.back) }
        ensures none { IfNone result (LeavesAsItIs Watch.Link self.now.view self.now.back) }
    {
        difference_of(self.machine, Watch::Link, self.back)
    }

    /// How many frames lay in the FIFO before it and after it, where it stored some or took some.
    pub fn frames(&self) -> Option<Difference>
        ensures difference { IfSome result (IsDifference Watch.Frames self.now.view self.now.back) }
        ensures none { IfNone result (LeavesAsItIs Watch.Frames self.now.view self.now.back) }
    {
        difference_of(self.machine, Watch::Frames, self.back)
    }

    /// How many frames were sent before it and after it, where it sent one.
    pub fn sent(&self) -> Option<Difference>
        ensures difference { IfSome result (IsDifference Watch.Sent self.now.view self.now.back) }
        ensures none { IfNone result (LeavesAsItIs Watch.Sent self.now.view self.now.back) }
    {
        difference_of(self.machine, Watch::Sent, self.back)
    }
}
