//! The handle.
ghost use Rattle.std.specs.Prelude.{◌≡◌, ◌↔◌, None, Some, Option, IsSome, IsTrue, IfOk, IfErr, OnOk, OnErr};
ghost use Rattle.std.specs.Option.{option_map};
ghost use Rattle.em_step.specs.Event.{plain};
ghost use Rattle.em_c.specs.Calls.{Performs, Tells};

use crate::note::EmNote;
use crate::parts::Parts;
use crate::refused::Refused;
use crate::sealed::Sealed;
use crate::tagged::Tagged;
use em_step::{Answer, Event};
use std::alloc::Global;

/// What C holds: a machine, or none.
#[repr(C)]
#[derive(Drop)]
pub struct EmMachine {
    pub made: bool,
    pub sealed: Sealed,
    ghost agrees: { IsTrue made ↔ IsSome sealed.held },
}

impl EmMachine {
    ghost use Rattle.std.specs.Borrow.{sem};
    ghost use Rattle.em_c.specs.Lent.{LendsHeld};

    /// The machine that is held, in its place: nothing of the handle is written. A call that only looks goes on with a
    /// `&` to it.
    pub fn held(&mut self) -> Result<&mut Tagged, Refused>
        ensures* writes_back { sem 𝓛 (LendsHeld self.entry result) }
        ensures some { IfOk result (λ held. self.old.sealed.held ≡ Some held.now) }
        ensures none { IfErr result (λ refused. refused ≡ Refused.NoMachine) }
        ensures had_none { OnErr result (self.old.sealed.held ≡ None) }
    {
        if self.made {
            Ok(self.sealed.as_mut())
        } else {
            Err(Refused::NoMachine)
        }
    }

    /// Takes the machine out, where there is one.
    pub fn take(&mut self, alloc: Global) -> Result<Box<Tagged>, Refused>
        ensures some { IfOk result (λ b. self.old.sealed.held ≡ Some b.value) }
        ensures none { IfErr result (λ refused. refused ≡ Refused.NoMachine) }
        ensures had_none { OnErr result (self.old.sealed.held ≡ None) }
        ensures left { self.new.sealed.held ≡ None }
    {
        let empty = EmMachine {
            made: false,
            sealed: Sealed::empty(alloc),
        };
        let EmMachine { made, sealed } = std::mem::replace(self, empty);
        if made {
            Ok(sealed.into_parts().into_box())
        } else {
            Err(Refused::NoMachine)
        }
    }

    /// Puts a machine in, in the place of none.
    pub fn put(&mut self, machine: Box<Tagged>)
        ensures { self.new.sealed.held ≡ Some machine.value }
    {
        *self = EmMachine {
            made: true,
            sealed: Sealed::of_parts(Parts::of(machine)),
        };
    }

    /// Performs an event on the machine that is held.
    // Inlined, so that what a call does is known by its event, and nothing is asked twice.
    #[inline(always)]
    pub fn perform(&mut self, alloc: Global, event: Event<'_>) -> Result<Answer, Refused>
        ensures { Performs self.old.sealed.held (plain event.entry) result self.new.sealed.held }
    {
        let mut machine = self.take(alloc)?;
        let result = machine.perform(event);
        self.put(machine);
        match result {
            Ok(answer) => Ok(answer),
            Err(refusal) => Err(Refused::of_event(refusal)),
        }
    }

    /// Performs an event on the machine that is held, and gives what its note tells.
    pub fn perform_noted(&mut self, alloc: Global, event: Event<'_>) -> Result<EmNote, Refused>
        ensures { Tells self.old.sealed.held (plain event.entry) result self.new.sealed.held }
    {
        let mut machine = self.take(alloc)?;
        let result = machine.perform_noted(event);
        self.put(machine);
        match result {
            Ok(note) => Ok(EmNote::of(note)),
            Err(refusal) => Err(Refused::of_event(refusal)),
        }
    }
}
