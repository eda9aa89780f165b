//! The octets that are gathered for the next frame.
ghost use Rattle.std.specs.Prelude.{◌≡◌, ◌≤◌, IfOk, IsTrue, List, ℕ, length, take, vec_capacity};
ghost use Rattle.em_mem.specs.Memory as mem;
ghost use Rattle.em_tx.specs.Cells.{cells, none_gathered, with_room};
ghost use Rattle.em_tx.specs.Frame.{without_tag};
ghost use Rattle.em_tx.specs.Undo.{Reverses};

use crate::frame;
use crate::undo::TxUndo;
use std::alloc::{AllocError, Global};
use std::marker::Model;

/// The longest frame with its tag has so many octets at most. The first step that handles a descriptor makes room for
/// them at once. So a step that is taken back finds room for what it gathers again.
pub(crate) const ROOM: usize = 16_384;

/// The octets of the buffers that were fetched since the last frame was sent. Clauses see their list, and whether there
/// is room.
#[derive(Drop)]
pub struct Gather {
    pub(crate) octets: Vec<u8>,
}

impl Model for Gather {
    ghost use Rattle.std.specs.Prelude.{nat_le, vec_capacity};
    ghost use Rattle.em_tx.specs.declared.gather.TheConstants.{ROOM};
    ghost use Rattle.em_tx.specs.Cells.{Gathered, gathered_code};

    ghost Value = { Gathered };

    ghost coded = { gathered_code };

    ghost view = { λ g. record { octets = g.octets.items; room = nat_le ROOM (vec_capacity g.octets) } };
}

impl Gather {
    /// Nothing gathered. It takes no memory.
    pub fn new(alloc: Global) -> Gather
        ensures { result ≡ none_gathered }
    {
        Gather {
            octets: Vec::new(alloc),
        }
    }

    /// These octets gathered, with room for the longest frame where there are any.
    pub fn of_octets(alloc: Global, octets: &[u8]) -> Result<Gather, AllocError>
        ensures { IfOk result (λ made. made.octets ≡ octets.now) }
    {
        if octets.is_empty() {
            return Ok(Gather::new(alloc));
        }
        let octets = copy_octets(alloc, octets, octets.len().max(ROOM))?;
        Ok(Gather { octets })
    }

    /// The same octets once more, with as much room.
    pub fn copy(&self) -> Result<Gather, AllocError>
        ensures { IfOk result (λ copy. copy ≡ self.now) }
    {
        let octets = copy_octets(
            *self.octets.allocator(),
            self.octets.as_slice(),
            self.octets.capacity(),
        )?;
        Ok(Gather { octets })
    }

    /// Puts the gathered octets aside, with their room. It takes no memory.
    pub fn clear(&mut self) -> TxUndo
        ensures empty { self.new ≡ none_gathered }
        ensures reverses { (wire : List (List ℕ)) (memory : mem.Cells) →
            Reverses (cells self.old wire memory) (cells self.new wire memory) result }
    {
        let alloc = *self.octets.allocator();
        TxUndo::Cleared(std::mem::replace(self, Gather::new(alloc)))
    }

    /// The gathered octets.
    pub fn octets(&self) -> &[u8]
        ensures { result.now ≡ self.now.octets }
    {
        self.octets.as_slice()
    }

    /// Cuts the gathered octets to so many.
    pub(crate) fn cut(&mut self, count: usize)
        ensures octets { self.new.octets ≡ take count self.old.octets }
        ensures room { self.new.room ≡ self.old.room }
    {
        self.octets.truncate(count);
    }

    /// Gathers the first octets of a frame, without its tag, in place of those that there are.
    pub(crate) fn take_frame(&mut self, frame: &[u8], tagged: bool, count: usize)
        requires tagged { IsTrue tagged → 16 ≤ length frame.now }
        requires within { count ≤ length (without_tag tagged frame.now) }
        requires few { count ≤ ROOM }
        requires room { IsTrue self.old.room }
        ensures { self.new ≡ with_room (take count (without_tag tagged frame.now)) }
    {
        self.octets.clear();
        if tagged {
            frame::gather_beside_tag(&mut self.octets, frame, count);
        } else {
            frame::gather(&mut self.octets, &frame[..count]);
        }
    }
}

/// The octets once more, with room for exactly so many.
fn copy_octets(alloc: Global, octets: &[u8], room: usize) -> Result<Vec<u8>, AllocError>
    requires { length octets.now ≤ room }
    ensures items { IfOk result (λ copy. copy.items ≡ octets.now) }
    ensures room { IfOk result (λ copy. vec_capacity copy ≡ room) }
{
    let mut copy = Vec::with_capacity(alloc, room)?;
    for octet in octets {
        copy.push_reserved(*octet);
    }
    Ok(copy)
}
