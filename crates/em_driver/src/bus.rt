//! What a driver reaches of a machine.
ghost use Rattle.std.specs.Prelude.{◌≡◌, length, true, IfErr, IfOk, OnErr, OnOk};
ghost use Rattle.em_regs.specs.Table.{IsRegOf, offset_of};
ghost use Rattle.em_step.specs.Access.{is_reset};
ghost use Rattle.em_step.specs.Event.{reads, writes, pokes};
ghost use Rattle.em_step.specs.declared.event.Answer.TheVariants.{Value, Done};
ghost use Rattle.em_driver.specs.World.{Accesses, IsRefused, Peeks, PeeksPast};

use em_regs::{Profile, Reg};
use em_step::Refusal;

/// The registers and the memory of a machine, as a driver reaches them.
///
/// Other actors may act before each access. What they do there, and what the machine was and is,
/// contracts see as one world. That a bus can be refused memory is known only from a refusal as
/// Memory: a driver that answers so has asked its bus.
pub trait Bus {
    ghost use Rattle.em_driver.specs.World.{World};

    ghost world: { Self → World };

    /// Reads a register; one event.
    fn read(&mut self, reg: Reg) -> u32
        requires { IsRegOf Profile.Table reg }
        ensures { Accesses (world self.old) (reads (offset_of reg)) (Value result) (world self.new) };

    /// Writes a register; one event. Refused only as Memory, and only for CTRL with RST.
    fn write(&mut self, reg: Reg, value: u32) -> Result<(), Refusal>
        requires { IsRegOf Profile.Table reg }
        ensures ok { OnOk result (Accesses (world self.old) (writes (offset_of reg) value) Done (world self.new)) }
        ensures err { IfErr result (λ refusal.
            IsRefused (world self.old) (writes (offset_of reg) value) refusal (world self.new)) }
        ensures only { IfErr result (λ refusal. (refusal ≡ Refusal.Memory) × (is_reset reg value ≡ true)) };

    /// Copies octets of memory out, from an address on; no event. Refused only as Range, where they
    /// leave memory; `out` then stays.
    fn peek(&mut self, addr: u64, out: &mut [u8]) -> Result<(), Refusal>
        ensures ok { OnOk result (Peeks (world self.old) addr (length out.old) out.new (world self.new)) }
        ensures err { OnErr result (PeeksPast (world self.old) addr (length out.old) (world self.new)) }
        ensures only { IfErr result (λ refusal. refusal ≡ Refusal.Range) }
        ensures same { OnErr result (out.new ≡ out.old) };

    /// Writes octets to memory, from an address on; one event. Refused only as Range, where they
    /// leave memory, as Length, where they are not 1 to 16,384, or as Memory.
    fn poke(&mut self, addr: u64, octets: &[u8]) -> Result<(), Refusal>
        ensures ok { OnOk result (Accesses (world self.old) (pokes addr octets.now) Done (world self.new)) }
        ensures err { IfErr result (λ refusal.
            IsRefused (world self.old) (pokes addr octets.now) refusal (world self.new)) };

    /// The address of the first octet of memory.
    fn base(&self) -> u64
        ensures { result ≡ (world self.now).machine.present.base };

    /// The address behind its last octet.
    fn end(&self) -> u64
        ensures { result ≡ length (world self.now).machine.present.memory };
}
