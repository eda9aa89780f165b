//! A machine with its trail performs events as a machine does.
use crate::traced::Traced;
use em_journal::{Acts, Empty, Machine};
use em_regs::Reg;
use em_step::{Answer, Event, Refusal};

/// The tag of an event that is known by its place.
const UNTAGGED: u64 = 0;

impl Acts for Traced {
    ghost shows = { λ traced. traced.view };

    #[inline(always)]
    fn perform(&mut self, event: Event<'_>) -> Result<Answer, Refusal> {
        Traced::perform(self, UNTAGGED, event)
    }

    #[inline(always)]
    fn read_register(&mut self, reg: Reg) -> u32 {
        Traced::read_register(self, UNTAGGED, reg)
    }

    #[inline(always)]
    fn write_register(&mut self, reg: Reg, value: u32) -> Result<(), Refusal> {
        Traced::write_register(self, UNTAGGED, reg, value)
    }

    fn machine(&self) -> &Machine {
        Traced::machine(self)
    }

    fn back(&mut self) -> Result<(), Empty> {
        Traced::back(self)?;
        Ok(())
    }

    fn back_by(&mut self, most: usize) -> usize {
        Traced::back_by(self, most)
    }
}
