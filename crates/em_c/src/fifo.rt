//! The frames that wait in the FIFO, and the octets that are gathered for the next frame to be sent.
ghost use Rattle.std.specs.Prelude.{◌≡◌, ◌++◌, None, Ok, IfOk, IfErr, length};
ghost use Rattle.em_c.specs.Refused.{Shows, number, told};
ghost use Rattle.em_c.specs.Looks.{asked, laid_into, length_of};
ghost use Rattle.em_c.specs.Fifo as the;

use crate::handle::EmMachine;
use crate::refused::{Refused, number, tell};
use crate::room::{lay, lay_in_two};
use crate::told::flag;
use em_journal::Machine;

/// What waits in the FIFO, and what is gathered.
#[repr(C)]
#[derive(Clone, Copy)]
pub struct EmFifo {
    /// How many frames wait.
    pub frames: u64,
    /// How many octets the first of them has; 0 where none waits.
    pub octets: u64,
    /// How many octets are gathered for the next frame to be sent.
    pub gathered: u64,
    /// 1 where a VLAN tag was taken out of the first frame, else 0.
    pub tagged: u32,
    /// That tag, else 0.
    pub tag: u32,
}

/// How many frames wait in the FIFO, what the first of them is, and how many octets are gathered.
#[unsafe(no_mangle)]
pub extern "C" fn em_fifo(machine: &mut EmMachine, fifo: &mut EmFifo) -> u32
    ensures fifo { Shows (asked machine.old.sealed.held the.fifo_in) fifo.old result fifo.new }
    ensures same { machine.new.sealed.held ≡ machine.old.sealed.held }
{
    tell(fifo_held(machine), fifo)
}

/// How many octets have room in the FIFO now: a frame of which no more are stored finds room, and any other is missed.
#[unsafe(no_mangle)]
pub extern "C" fn em_fifo_room(machine: &mut EmMachine, octets: &mut usize) -> u32
    ensures room { Shows (asked machine.old.sealed.held the.room_in) octets.old result octets.new }
    // as an arrival would find it
    ensures exact { the.IsRoomOf machine.old.sealed.held octets.new }
    ensures same { machine.new.sealed.held ≡ machine.old.sealed.held }
{
    tell(room_held(machine), octets)
}

/// Copies the first frame out that waits in the FIFO, and tells how many octets it has: also where there is no room for
/// them, and then nothing is copied. Where none waits it has none.
#[unsafe(no_mangle)]
pub extern "C" fn em_fifo_frame(machine: &mut EmMachine, out: &mut [u8], octets: &mut usize) -> u32
    ensures frame { Shows (laid_into out.old (asked machine.old.sealed.held the.first_frame)) out.old result out.new }
    ensures octets { octets.new ≡ told octets.old (length_of (asked machine.old.sealed.held the.first_frame)) }
    ensures same { machine.new.sealed.held ≡ machine.old.sealed.held }
{
    number(copy_first(machine, out, octets))
}

/// Copies the octets out that are gathered for the next frame to be sent, and tells how many they are: also where there
/// is no room for them, and then nothing is copied.
#[unsafe(no_mangle)]
pub extern "C" fn em_gathered(machine: &mut EmMachine, out: &mut [u8], octets: &mut usize) -> u32
    ensures gathered { Shows (laid_into out.old (asked machine.old.sealed.held the.gathered)) out.old result out.new }
    ensures octets { octets.new ≡ told octets.old (length_of (asked machine.old.sealed.held the.gathered)) }
    ensures same { machine.new.sealed.held ≡ machine.old.sealed.held }
{
    number(copy_gathered(machine, out, octets))
}

/// The FIFO of the machine that is held.
fn fifo_held(machine: &mut EmMachine) -> Result<EmFifo, Refused>
    ensures fifo { result ≡ asked machine.old.sealed.held the.fifo_in }
    ensures same { machine.new.sealed.held ≡ machine.old.sealed.held }
{
    let held = machine.held()?;
    Ok(fifo_told(held.looked_at()))
}

/// The room in the FIFO of the machine that is held.
fn room_held(machine: &mut EmMachine) -> Result<usize, Refused>
    ensures room { result ≡ asked machine.old.sealed.held the.room_in }
    ensures exact { IfOk result (the.IsRoomOf machine.old.sealed.held) }
    ensures none { IfErr result (λ refused. machine.old.sealed.held ≡ None) }
    ensures same { machine.new.sealed.held ≡ machine.old.sealed.held }
{
    let held = machine.held()?;
    Ok(room_of(held.looked_at()))
}

/// The room in the FIFO of a machine.
fn room_of(machine: &Machine) -> usize
    ensures room { result ≡ the.octets_free machine.now.present }
    ensures exact { the.IsRoomIn machine.now.present result }
{
    machine.room()
}

/// The FIFO of a machine.
fn fifo_told(machine: &Machine) -> EmFifo
    ensures { result ≡ the.fifo_told machine.now.present }
{
    let frames = machine.frames() as u64;
    let gathered = machine.gathered().len() as u64;
    match machine.first_frame() {
        Some(frame) => EmFifo {
            frames,
            octets: frame.front.len() as u64 + frame.back.len() as u64,
            gathered,
            tagged: flag(frame.tag.is_some()),
            tag: u32::from(frame.tag.unwrap_or(0)),
        },
        None => EmFifo {
            frames,
            octets: 0,
            gathered,
            tagged: 0,
            tag: 0,
        },
    }
}

/// Copies the first frame of the machine that is held.
fn copy_first(machine: &mut EmMachine, out: &mut [u8], octets: &mut usize) -> Result<(), Refused>
    ensures outcome { number result ≡ number (laid_into out.old (asked machine.old.sealed.held the.first_frame)) }
    ensures frame { out.new ≡ told out.old (laid_into out.old (asked machine.old.sealed.held the.first_frame)) }
    ensures octets { octets.new ≡ told octets.old (length_of (asked machine.old.sealed.held the.first_frame)) }
    ensures same { machine.new.sealed.held ≡ machine.old.sealed.held }
{
    let held = machine.held()?;
    lay_first(held.looked_at(), out, octets)
}

/// Copies the first frame of a machine.
fn lay_first(machine: &Machine, out: &mut [u8], octets: &mut usize) -> Result<(), Refused>
    ensures outcome { number result ≡ number (laid_into out.old (the.first_frame machine.now)) }
    ensures frame { out.new ≡ told out.old (laid_into out.old (the.first_frame machine.now)) }
    ensures octets { octets.new ≡ told octets.old (length_of (the.first_frame machine.now)) }
{
    match machine.first_frame() {
        Some(frame) => lay_in_two(frame.front, frame.back, out, octets),
        None => lay(b"", out, octets),
    }
}

/// Copies what the machine that is held has gathered.
fn copy_gathered(machine: &mut EmMachine, out: &mut [u8], octets: &mut usize) -> Result<(), Refused>
    ensures outcome { number result ≡ number (laid_into out.old (asked machine.old.sealed.held the.gathered)) }
    ensures gathered { out.new ≡ told out.old (laid_into out.old (asked machine.old.sealed.held the.gathered)) }
    ensures octets { octets.new ≡ told octets.old (length_of (asked machine.old.sealed.held the.gathered)) }
    ensures same { machine.new.sealed.held ≡ machine.old.sealed.held }
{
    let held = machine.held()?;
    lay(held.looked_at().gathered(), out, octets)
}
