//! What performs events as a machine does, and takes them back.
ghost use Rattle.std.specs.Prelude.{◌≡◌, IfOk, IfErr, OnOk, OnErr, length, min};
ghost use Rattle.em_regs.specs.Table.{IsRegOf, offset_of};
ghost use Rattle.em_step.specs.Event.{plain, reads, writes};
ghost use Rattle.em_journal.specs.History.{WasJournalled, Does, refuses, goes_back, is_empty};
ghost use Rattle.em_journal.specs.View.{after_backs};

use crate::machine::Machine;
use crate::refusal::Empty;
use em_regs::{Profile, Reg};
use em_step::{Answer, Event, Refusal};

/// A machine, or one that keeps more beside it.
pub trait Acts {
    ghost use Rattle.em_journal.specs.View.{View};

    ghost shows: { Self → View };

    /// Performs one event and journals it. A refused event changes nothing.
    fn perform(&mut self, event: Event<'_>) -> Result<Answer, Refusal>
        ensures ok { IfOk result (λ answer.
            WasJournalled (shows self.old) (plain event.entry) answer (shows self.new)) }
        ensures err { IfErr result (λ refusal.
            Does (shows self.old) (refuses (plain event.entry) refusal) (shows self.new)) };

    /// Software reads a register that each profile has: the event of a read at its offset.
    fn read_register(&mut self, reg: Reg) -> u32
        requires { IsRegOf Profile.Table reg }
        ensures { WasJournalled (shows self.old) (reads (offset_of reg)) (Answer.Value result) (shows self.new) };

    /// Software writes a register that each profile has: the event of a write at its offset. Refused only as Memory,
    /// where it is a reset.
    fn write_register(&mut self, reg: Reg, value: u32) -> Result<(), Refusal>
        requires { IsRegOf Profile.Table reg }
        ensures ok { OnOk result (WasJournalled (shows self.old) (writes (offset_of reg) value) Answer.Done
            (shows self.new)) }
        ensures err { IfErr result (λ refusal.
            Does (shows self.old) (refuses (writes (offset_of reg) value) refusal) (shows self.new)) };

    /// The machine, to look at.
    fn machine(&self) -> &Machine
        ensures { result.now ≡ shows self.now };

    /// Takes the newest event back. Refused exactly where there is none.
    fn back(&mut self) -> Result<(), Empty>
        ensures ok { OnOk result (Does (shows self.old) goes_back (shows self.new)) }
        ensures empty { OnErr result (Does (shows self.old) is_empty (shows self.new)) };

    /// Takes the newest events back, at most so many, and gives how many.
    fn back_by(&mut self, most: usize) -> usize
        ensures count { result ≡ min most (length (shows self.old).past) }
        ensures view { shows self.new ≡ after_backs most (shows self.old) };
}

impl Acts for Machine {
    ghost shows = { λ machine. machine };

    #[inline(always)]
    fn perform(&mut self, event: Event<'_>) -> Result<Answer, Refusal> {
        Machine::perform(self, event)
    }

    #[inline(never)]
    fn read_register(&mut self, reg: Reg) -> u32 {
        Machine::read_register(self, reg)
    }

    #[inline(never)]
    fn write_register(&mut self, reg: Reg, value: u32) -> Result<(), Refusal> {
        Machine::write_register(self, reg, value)
    }

    fn machine(&self) -> &Machine {
        self
    }

    #[inline(always)]
    fn back(&mut self) -> Result<(), Empty> {
        Machine::back(self)
    }

    fn back_by(&mut self, most: usize) -> usize {
        Machine::back_by(self, most)
    }
}
