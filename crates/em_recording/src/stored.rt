//! The newest frame of the FIFO.
ghost use Rattle.std.specs.Prelude.{◌≡◌, ◌<◌, ◌++◌, ◌^◌, IfOk, take, drop};
ghost use Rattle.std.specs.Option.{option_map};
ghost use Rattle.em_rx.specs.Fifo.{last};
ghost use Rattle.em_rx.specs.StoredFrame.{LiesSo};
ghost use Rattle.em_step.specs.Access.{gives};
ghost use Rattle.em_recording.specs.Stored.{newest_frame, tag_octets, with_tag};

use crate::copied::copied;
use em_journal::Machine;
use em_regs::Reg;
use em_rx::StoredFrame;
use std::alloc::{AllocError, Global};

/// Where a tag lies in a frame: behind the two addresses.
const TAG_PLACE: usize = 12;

/// The newest frame of a machine's FIFO as it came from the wire, so with a tag that was taken out of it; none where no
/// frame waits. It is what an event stored that left more frames in the FIFO than lay there, while the machine stands
/// right behind that event.
pub fn newest_frame(alloc: Global, machine: &Machine) -> Result<Option<Vec<u8>>, AllocError>
    ensures { IfOk result (λ frame. option_map (λ octets. octets.items) frame ≡ newest_frame machine.now.present) }
{
    let Some(frame) = machine.last_frame() else {
        return Ok(None);
    };
    let octets = whole(alloc, frame)?;
    match frame.tag {
        None => Ok(Some(octets)),
        Some(tag) => Ok(Some(tagged(alloc, octets.as_slice(), tag_of(machine, tag))?)),
    }
}

/// The octets of a frame that may lie in two pieces.
fn whole(alloc: Global, frame: StoredFrame<'_>) -> Result<Vec<u8>, AllocError>
    ensures { IfOk result (λ octets. octets.items ≡ frame.entry.front.now ++ frame.entry.back.now) }
{
    let mut octets = copied(alloc, frame.front)?;
    octets.extend_from_slice(frame.back)?;
    Ok(octets)
}

/// A tag's four octets: VET, and the tag that was kept.
fn tag_of(machine: &Machine, tag: u16) -> [u8; 4]
    ensures { result ≡ tag_octets machine.now.present tag }
{
    let vet = (vet_of(machine) % 0x1_0000) as u16;
    let [a, b] = vet.to_be_bytes();
    let [c, d] = tag.to_be_bytes();
    [a, b, c, d]
}

/// VET: the type of a frame with a VLAN tag.
fn vet_of(machine: &Machine) -> u32
    ensures { result ≡ gives machine.now.present Reg.Vet }
{
    match machine.look(Reg::Vet.offset()) {
        Some(value) => value,
        None => unreachable!(),
    }
}

/// Octets with a tag behind the addresses.
fn tagged(alloc: Global, octets: &[u8], tag: [u8; 4]) -> Result<Vec<u8>, AllocError>
    ensures { IfOk result (λ frame. frame.items ≡ with_tag tag octets.now) }
{
    let (addresses, others) = octets.split_at(octets.len().min(TAG_PLACE));
    let mut frame = copied(alloc, addresses)?;
    frame.extend_from_slice(&tag)?;
    frame.extend_from_slice(others)?;
    Ok(frame)
}
