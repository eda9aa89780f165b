//! Captures: their frames are read, and each is handed over once.
ghost use Rattle.std.specs.Prelude.{◌≡◌, ◌↔◌, None, Some, Option, IsSome, IsTrue, IfOk, IfErr, OnErr};
ghost use Rattle.em_pcap.specs.Reading.{reading_of};
ghost use Rattle.em_c.specs.Refused.{number, told, Shows};
ghost use Rattle.em_c.specs.Looks.{laid_into, length_of};
ghost use Rattle.em_c.specs.Pcap.{
  Opens,
  asked,
  fault_in,
  left_behind,
  left_in,
  next_in,
  octets_of,
  own_address,
  reading_in,
  told_into,
};

use crate::captured::{EmPcapFrame, Frames};
use crate::parts::Parts;
use crate::refused::{DONE, Refused, number, tell};
use crate::sealed_frames::SealedFrames;
use std::alloc::Global;

/// What C holds of a capture: the frames that were not handed over, or none.
#[repr(C)]
#[derive(Drop)]
pub struct EmPcap {
    pub made: bool,
    pub sealed: SealedFrames,
    ghost agrees: { IsTrue made ↔ IsSome sealed.held },
}

impl EmPcap {
    /// Takes the frames out, where a capture is open.
    fn take(&mut self, alloc: Global) -> Result<Box<Frames>, Refused>
        ensures some { IfOk result (λ b. self.old.sealed.held ≡ Some b.value) }
        ensures none { IfErr result (λ refused. refused ≡ Refused.NoCapture) }
        ensures had_none { OnErr result (self.old.sealed.held ≡ None) }
        ensures left { self.new.sealed.held ≡ None }
    {
        let empty = EmPcap {
            made: false,
            sealed: SealedFrames::empty(alloc),
        };
        let EmPcap { made, sealed } = std::mem::replace(self, empty);
        if made {
            Ok(sealed.into_parts().into_box())
        } else {
            Err(Refused::NoCapture)
        }
    }

    /// Puts frames in, in the place of none.
    fn put(&mut self, frames: Box<Frames>)
        ensures { self.new.sealed.held ≡ Some frames.value }
    {
        *self = EmPcap {
            made: true,
            sealed: SealedFrames::of_parts(Parts::of(frames)),
        };
    }
}

/// Opens a capture: reads its frames out of the octets of its file, which are copied.
#[unsafe(no_mangle)]
pub extern "C" fn em_pcap_of(alloc: Global, pcap: &mut EmPcap, octets: &[u8]) -> u32
    ensures { Opens pcap.old.sealed.held octets.now result pcap.new.sealed.held }
{
    if pcap.made {
        return Refused::HasCapture.number();
    }
    match frames_of(alloc, octets) {
        Ok(frames) => {
            pcap.put(frames);
            DONE
        }
        Err(refused) => refused.number(),
    }
}

/// Hands the next frame of a capture over: each frame once, in their order. It tells how many octets were captured of it,
/// and the rest. Where there is no room for them nothing is copied, and it is the next one still.
#[unsafe(no_mangle)]
pub extern "C" fn em_pcap_next(
    alloc: Global,
    pcap: &mut EmPcap,
    out: &mut [u8],
    octets: &mut usize,
    frame: &mut EmPcapFrame,
) -> u32
    ensures octets { Shows (laid_into out.old (octets_of (next_in pcap.old.sealed.held))) out.old result out.new }
    ensures length { octets.new ≡ told octets.old (length_of (octets_of (next_in pcap.old.sealed.held))) }
    ensures frame { frame.new ≡ told frame.old (told_into out.old (next_in pcap.old.sealed.held)) }
    ensures left { left_in pcap.new.sealed.held ≡ left_behind out.old (left_in pcap.old.sealed.held) }
{
    number(hand_over(alloc, pcap, out, octets, frame))
}

/// Where in the file of a capture its fault is: the offset of the header, the record or the block that has it.
#[unsafe(no_mangle)]
pub extern "C" fn em_pcap_fault(alloc: Global, pcap: &mut EmPcap, offset: &mut usize) -> u32
    ensures offset { Shows (asked pcap.old.sealed.held fault_in) offset.old result offset.new }
    ensures same { pcap.new.sealed.held ≡ pcap.old.sealed.held }
{
    tell(fault(alloc, pcap), offset)
}

/// Closes a capture, where one is open.
#[unsafe(no_mangle)]
pub extern "C" fn em_pcap_close(alloc: Global, pcap: &mut EmPcap)
    ensures { pcap.new.sealed.held ≡ None }
{
    drop(pcap.take(alloc));
}

/// The frames of a capture in a box.
fn frames_of(alloc: Global, octets: &[u8]) -> Result<Box<Frames>, Refused>
    ensures ok { IfOk result (λ frames. reading_in frames.value ≡ reading_of own_address octets.now) }
    ensures err { IfErr result (λ refused. refused ≡ Refused.Memory) }
{
    let frames = Frames::read(alloc, octets)?;
    match Box::new(alloc, frames) {
        Ok(frames) => Ok(frames),
        Err(_) => Err(Refused::Memory),
    }
}

/// Hands the next frame of the capture over that is open.
fn hand_over(
    alloc: Global,
    pcap: &mut EmPcap,
    out: &mut [u8],
    octets: &mut usize,
    frame: &mut EmPcapFrame,
) -> Result<(), Refused>
    ensures outcome { number result ≡ number (laid_into out.old (octets_of (next_in pcap.old.sealed.held))) }
    ensures octets { out.new ≡ told out.old (laid_into out.old (octets_of (next_in pcap.old.sealed.held))) }
    ensures length { octets.new ≡ told octets.old (length_of (octets_of (next_in pcap.old.sealed.held))) }
    ensures frame { frame.new ≡ told frame.old (told_into out.old (next_in pcap.old.sealed.held)) }
    ensures left { left_in pcap.new.sealed.held ≡ left_behind out.old (left_in pcap.old.sealed.held) }
{
    let mut frames = pcap.take(alloc)?;
    let outcome = frames.hand_over(out, octets, frame);
    pcap.put(frames);
    outcome
}

/// Where the fault of the capture is that is open.
fn fault(alloc: Global, pcap: &mut EmPcap) -> Result<usize, Refused>
    ensures offset { result ≡ asked pcap.old.sealed.held fault_in }
    ensures same { pcap.new.sealed.held ≡ pcap.old.sealed.held }
{
    let frames = pcap.take(alloc)?;
    let offset = frames.fault_at();
    pcap.put(frames);
    offset
}
