//! The frames that were sent are handed over, each once.
ghost use Rattle.std.specs.Prelude.{◌≡◌, ◌<◌, OnOk, length};
ghost use Rattle.em_c.specs.Refused.{number, told, Shows};
ghost use Rattle.em_c.specs.Looks.{laid_into, length_of, wire_frame};
ghost use Rattle.em_c.specs.Next.{after_next, held_after_next, next_frame, next_of};

use crate::handle::EmMachine;
use crate::refused::{Refused, number};
use crate::tagged::Tagged;
use crate::wire::lay_frame;

/// Hands the next frame over that was sent, and tells how many octets it has: each frame once, in the order of sending.
/// Where there is no room for it nothing is copied, and it is the next one still.
#[unsafe(no_mangle)]
pub extern "C" fn em_wire_next(machine: &mut EmMachine, out: &mut [u8], octets: &mut usize) -> u32
    ensures frame { Shows (laid_into out.old (next_frame machine.old.sealed.held)) out.old result out.new }
    ensures octets { octets.new ≡ told octets.old (length_of (next_frame machine.old.sealed.held)) }
    ensures held { machine.new.sealed.held ≡ held_after_next out.old machine.old.sealed.held }
{
    number(hand_held(machine, out, octets))
}

/// Hands the next frame over of the machine that is held.
fn hand_held(machine: &mut EmMachine, out: &mut [u8], octets: &mut usize) -> Result<(), Refused>
    ensures outcome { number result ≡ number (laid_into out.old (next_frame machine.old.sealed.held)) }
    ensures frame { out.new ≡ told out.old (laid_into out.old (next_frame machine.old.sealed.held)) }
    ensures octets { octets.new ≡ told octets.old (length_of (next_frame machine.old.sealed.held)) }
    ensures held { machine.new.sealed.held ≡ held_after_next out.old machine.old.sealed.held }
{
    let held = machine.held()?;
    hand_over(held, out, octets)
}

/// Hands the next frame over.
fn hand_over(machine: &mut Tagged, out: &mut [u8], octets: &mut usize) -> Result<(), Refused>
    ensures outcome { number result ≡ number (laid_into out.old (next_of machine.old)) }
    ensures frame { out.new ≡ told out.old (laid_into out.old (next_of machine.old)) }
    ensures octets { octets.new ≡ told octets.old (length_of (next_of machine.old)) }
    ensures handed { machine.new ≡ after_next out.old machine.old }
{
    let sent = machine.looked_at().wire_len();
    lay_frame(machine.looked_at(), machine.handed, out, octets)?;
    prove!(machine.handed < sent);
    machine.handed += 1;
    Ok(())
}
