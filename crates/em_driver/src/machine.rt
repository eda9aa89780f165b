//! A machine on which nobody else acts.
use crate::bus::Bus;
use em_journal::Machine;
use em_regs::Reg;
use em_step::{Event, Refusal};

impl Bus for Machine {
    ghost use Rattle.em_driver.specs.World.{quiet};

    ghost world = { quiet };

    #[inline(never)]
    fn read(&mut self, reg: Reg) -> u32 {
        self.read_register(reg)
    }

    #[inline(never)]
    fn write(&mut self, reg: Reg, value: u32) -> Result<(), Refusal> {
        self.write_register(reg, value)
    }

    fn peek(&mut self, addr: u64, out: &mut [u8]) -> Result<(), Refusal> {
        Machine::peek(self, addr, out)
    }

    fn poke(&mut self, addr: u64, octets: &[u8]) -> Result<(), Refusal> {
        self.perform(Event::Poke(addr, octets))?;
        Ok(())
    }

    fn base(&self) -> u64 {
        self.memory_base()
    }

    fn end(&self) -> u64 {
        self.memory_end()
    }
}
