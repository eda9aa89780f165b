//! The FIFO: frames that lie end to end in one packet buffer.
ghost use Rattle.std.specs.Prelude.{◌≡◌, ◌↔◌, ◌+◌, ◌<◌, ◌≤◌, IfOk, IfErr, IfSome, IsNone, IsTrue, OnOk, OnErr};
ghost use Rattle.std.specs.Prelude.{length, nat_le, true};
ghost use Rattle.em_mem.specs.Memory as memory;
ghost use Rattle.em_mem.specs.Memory.{IsHeld, IsMade, put};
ghost use Rattle.em_mem.specs.OldOctets.{Keeps, Saves};
ghost use Rattle.em_rx.specs.Frame.{stored_frame};
ghost use Rattle.em_rx.specs.StoredFrame.{LiesSo};
ghost use Rattle.em_rx.specs.Fifo.{after_arrival, after_delivery, empty, first, fresh, HasRoom, IsFirst, IsLast};
ghost use Rattle.em_rx.specs.Fifo.{IsFifo, IsSound, last, next, octets_in, rest, shows};
ghost use Rattle.em_rx.specs.Records.{IsWhole, frame_patch, record_of, saved_of, step_patch};
ghost use Rattle.em_rx.specs.RxUndo.{Frame};
ghost use Rattle.em_rx.specs.Undo.{Fits, FitsFrame, FitsStep, IsMove, Reverses, ReversesStep, delivered, moved_back};
ghost use Rattle.em_rx.specs.Undo.{octets_held, places_before, undo_fifo, undo_memory, with_both, with_patch};

use crate::descriptor::WRITTEN_OCTETS;
use crate::frame::{stored_octets, tag_of};
use crate::places::{Entry, Places};
use crate::ring::{back, put_both, save_part};
use crate::{MOST_HELD, OldFrame, OldPiece, RxRefusal, RxUndo, StoredFrame};
use em_mem::ring::{pieces, put_octets, wrap};
use em_mem::{GuestMemory, OldOctets, Saved};
use std::alloc::{AllocError, Global};
use std::marker::Model;

/// How many octets the packet buffer has: the 48 KB that PBA gives to receiving after a reset (manual,
/// chapter on register descriptions). A write of PBA does not change it (this project's profile).
const OCTETS: u32 = 49_152;

/// How many entries the ring has: so many frames of the least stored length, 56 octets, fill the buffer.
const ENTRIES: u32 = 877;

/// The frames that the wire brought and the receive engine has not delivered yet.
#[derive(Drop)]
pub struct Fifo {
    alloc: Global,
    octets: Vec<u8>,
    entries: Vec<Entry>,
    places: Places,
}

impl Model for Fifo {
    ghost use Rattle.em_rx.specs.Fifo.{Cells, cells_code};

    ghost Value = { Cells };

    ghost coded = { cells_code };

    ghost use Rattle.em_rx.specs.Fifo.{IsSound};

    ghost view = { λ f. record { octets = f.octets.items; entries = f.entries.items; places = f.places } };

    ghost invariant = { λ f.
        IsSound (record { octets = f.octets.items; entries = f.entries.items; places = f.places }) };
}

impl Fifo {
    /// A FIFO with no frame. It takes all its memory here; `Memory` where that is refused.
    #[tactic(auto, unfolding(crate::specs::Fifo::fresh))]
    pub fn new(alloc: Global) -> Result<Fifo, RxRefusal>
        ensures ok { IfOk result (λ fifo. fifo ≡ fresh) }
        ensures shown { IfOk result (λ fifo. shows fifo ≡ empty) }
        ensures refused { IfErr result (λ refusal. refusal ≡ RxRefusal.Memory) }
    {
        let octets = vec![in alloc; 0; OCTETS as usize]?;
        let entries = vec![in alloc; Entry { len: 0, tag: None }; ENTRIES as usize]?;
        let places = Places {
            head: 0,
            first: 0,
            count: 0,
            taken: 0,
            used: 0,
        };
        Ok(Fifo {
            alloc,
            octets,
            entries,
            places,
        })
    }

    /// The same FIFO once more: each octet of the buffer, and each entry.
    pub fn copy(&self) -> Result<Fifo, AllocError>
        ensures { IfOk result (λ copy. copy ≡ self.now) }
    {
        let octets = Vec::from_slice(self.alloc, self.octets.as_slice())?;
        let entries = Vec::from_slice(self.alloc, self.entries.as_slice())?;
        Ok(Fifo {
            alloc: self.alloc,
            octets,
            entries,
            places: self.places,
        })
    }

    /// Where it takes memory.
    pub(crate) fn alloc(&self) -> Global {
        self.alloc
    }

    /// How many frames lie in it.
    pub fn frames(&self) -> usize
        ensures { result ≡ length (shows self.now).frames }
    {
        self.places.count as usize
    }

    /// Whether a frame of `len` stored octets has room.
    pub fn has_room(&self, len: usize) -> bool
        ensures { IsTrue result ↔ HasRoom (shows self.now) len }
    {
        len <= (OCTETS - self.places.used) as usize
    }

    /// How many stored octets have room.
    pub fn room(&self) -> usize
        ensures { octets_in (shows self.now) + result ≡ 49_152 }
    {
        (OCTETS - self.places.used) as usize
    }

    /// Stores a frame, which comes last: a tagged one without its octets 12 to 15. What it overwrites is
    /// saved before other old octets. Refused for `Memory` alone, where a tagged frame's copy finds none, or
    /// old octets no room; the FIFO and the old octets then stay.
    #[inline(always)]
    pub fn store(
        &mut self,
        frame: &[u8],
        tagged: bool,
        old: &mut OldOctets,
    ) -> Result<OldFrame, RxRefusal>
        requires least { 60 ≤ length frame.now }
        requires most { length (stored_frame frame.now tagged).octets ≤ 16_384 }
        requires room { HasRoom (shows self.old) (length (stored_frame frame.now tagged).octets) }
        ensures ok { OnOk result (shows self.new ≡ after_arrival (shows self.old) (stored_frame frame.now tagged)) }
        ensures held { IfOk result (λ r. r.len ≡ length (stored_frame frame.now tagged).octets) }
        ensures keeps { IfOk result (λ r. Keeps r.len old.old old.new) }
        ensures reverses { IfOk result (λ r. (m : memory.Cells) →
            Reverses self.old self.new m m (Frame (frame_patch r old.new))) }
        ensures refused { IfErr result (λ refusal. refusal ≡ RxRefusal.Memory) }
        ensures same { OnErr result (self.new ≡ self.old) }
        ensures kept { OnErr result (old.new ≡ old.old) }
    {
        if tagged {
            self.store_tagged(frame, old)
        } else {
            self.store_octets(frame, None, old)
        }
    }

    /// Stores a tagged frame, which comes last, without its octets 12 to 15.
    #[inline(never)]
    fn store_tagged(&mut self, frame: &[u8], old: &mut OldOctets) -> Result<OldFrame, RxRefusal>
        requires least { 60 ≤ length frame.now }
        requires most { length (stored_frame frame.now true).octets ≤ 16_384 }
        requires room { HasRoom (shows self.old) (length (stored_frame frame.now true).octets) }
        ensures ok { OnOk result (shows self.new ≡ after_arrival (shows self.old) (stored_frame frame.now true)) }
        ensures held { IfOk result (λ r. r.len ≡ length (stored_frame frame.now true).octets) }
        ensures keeps { IfOk result (λ r. Keeps r.len old.old old.new) }
        ensures reverses { IfOk result (λ r. (m : memory.Cells) →
            Reverses self.old self.new m m (Frame (frame_patch r old.new))) }
        ensures refused { IfErr result (λ refusal. refusal ≡ RxRefusal.Memory) }
        ensures same { OnErr result (self.new ≡ self.old) }
        ensures kept { OnErr result (old.new ≡ old.old) }
    {
        let octets = stored_octets(self.alloc, frame)?;
        self.store_octets(octets.as_slice(), Some(tag_of(frame)), old)
    }

    /// Stores the octets and the tag of a frame, which comes last, once there is room for what they overwrite.
    #[inline(always)]
    fn store_octets(
        &mut self,
        octets: &[u8],
        tag: Option<u16>,
        old: &mut OldOctets,
    ) -> Result<OldFrame, RxRefusal>
        requires least { 56 ≤ length octets.now }
        requires room { HasRoom (shows self.old) (length octets.now) }
        ensures ok { OnOk result (shows self.new
            ≡ after_arrival (shows self.old) (record { octets = octets.now; tag = tag })) }
        ensures held { IfOk result (λ r. r.len ≡ length octets.now) }
        ensures keeps { IfOk result (λ r. Keeps r.len old.old old.new) }
        ensures reverses { IfOk result (λ r. (m : memory.Cells) →
            Reverses self.old self.new m m (Frame (frame_patch r old.new))) }
        ensures refused { IfErr result (λ refusal. refusal ≡ RxRefusal.Memory) }
        ensures same { OnErr result (self.new ≡ self.old) }
        ensures kept { OnErr result (old.new ≡ old.old) }
    {
        old.make_room(octets.len())?;
        Ok(self.put_last(octets, tag, old))
    }

    /// Puts the octets and the tag of a frame behind the others, and saves what they overwrite.
    #[inline(always)]
    fn put_last(&mut self, octets: &[u8], tag: Option<u16>, old: &mut OldOctets) -> OldFrame
        requires least { 56 ≤ length octets.now }
        requires room { HasRoom (shows self.old) (length octets.now) }
        requires old_room { length octets.now ≤ length old.old.octets }
        ensures shown { shows self.new
            ≡ after_arrival (shows self.old) (record { octets = octets.now; tag = tag }) }
        ensures held { result.len ≡ length octets.now }
        ensures saves { Saves result.len old.old old.new }
        ensures reverses { (m : memory.Cells) →
            Reverses self.old self.new m m (Frame (frame_patch result old.new)) }
    {
        let places = self.places;
        let len = octets.len();
        let at = wrap(OCTETS, places.head + places.used) as usize;
        save_part(self.octets.as_slice(), at, len, old);
        put_octets(&mut self.octets, at, octets);
        let index = wrap(ENTRIES, places.first + places.count) as usize;
        let entry = self.entries[index];
        self.entries[index] = Entry {
            len: len as u16,
            tag,
        };
        self.places = Places {
            count: places.count + 1,
            used: places.used + len as u32,
            ..places
        };
        OldFrame {
            entry,
            len: len as u16,
        }
    }

    /// Stores a frame as `store` does, with a record that stands by itself. Refused for `Memory` alone; the
    /// FIFO then stays.
    pub fn accept(&mut self, frame: &[u8], tagged: bool) -> Result<RxUndo, RxRefusal>
        requires least { 60 ≤ length frame.now }
        requires most { length (stored_frame frame.now tagged).octets ≤ 16_384 }
        requires room { HasRoom (shows self.old) (length (stored_frame frame.now tagged).octets) }
        ensures ok { OnOk result (shows self.new ≡ after_arrival (shows self.old) (stored_frame frame.now tagged)) }
        ensures held { IfOk result (λ r.
            octets_held (record_of r) ≡ length (stored_frame frame.now tagged).octets) }
        ensures most { IfOk result (λ r. octets_held (record_of r) ≤ MOST_HELD) }
        ensures whole { IfOk result IsWhole }
        ensures reverses { IfOk result (λ r. (m : memory.Cells) → Reverses self.old self.new m m (record_of r)) }
        ensures refused { IfErr result (λ refusal. refusal ≡ RxRefusal.Memory) }
        ensures same { OnErr result (self.new ≡ self.old) }
    {
        let mut old = OldOctets::none(self.alloc);
        let stored = self.store(frame, tagged, &mut old)?;
        Ok(RxUndo::Frame(stored, old))
    }

    /// All frames leave. Their octets stay in the buffer until arrivals overwrite them.
    pub fn clear(&mut self) -> RxUndo
        ensures shown { shows self.new ≡ empty }
        ensures held { octets_held (record_of result) ≡ 0 }
        ensures whole { IsWhole result }
        ensures reverses { (m : memory.Cells) → Reverses self.old self.new m m (record_of result) }
    {
        RxUndo::Places(self.empty_out())
    }

    /// All frames leave, and the places where they lay come out.
    pub fn empty_out(&mut self) -> Places
        ensures shown { shows self.new ≡ empty }
        ensures sound { IsSound (record self.new { places = result }) }
        ensures restores { record self.new { places = result } ≡ self.old }
    {
        let places = self.places;
        self.places = Places {
            count: 0,
            taken: 0,
            used: 0,
            ..places
        };
        places
    }

    /// Puts places back that came out.
    pub fn put_places_back(&mut self, places: Places)
        requires { IsSound (record self.old { places = places }) }
        ensures { self.new ≡ record self.old { places = places } }
    {
        self.places = places;
    }

    /// Puts the octets and the tag of a frame behind the others, as `store` does once the tag is taken out.
    pub fn put(&mut self, octets: &[u8], tag: Option<u16>) -> Result<(), RxRefusal>
        requires least { 56 ≤ length octets.now }
        requires room { HasRoom (shows self.old) (length octets.now) }
        ensures ok { OnOk result (shows self.new
            ≡ after_arrival (shows self.old) (record { octets = octets.now; tag = tag })) }
        ensures refused { IfErr result (λ refusal. refusal ≡ RxRefusal.Memory) }
        ensures same { OnErr result (self.new ≡ self.old) }
    {
        let mut old = OldOctets::none(self.alloc);
        self.store_octets(octets, tag, &mut old)?;
        Ok(())
    }

    /// Passes over so many octets of the first frame, as if they had gone to guest memory: with the last one it leaves.
    pub fn pass(&mut self, count: u32)
        requires some { 0 < length (shows self.old).frames }
        requires count { count ≤ rest (shows self.old) }
        ensures { shows self.new ≡ after_delivery (shows self.old) count }
    {
        self.places = self.places_after(count);
    }

    /// How many octets of the first frame are in guest memory already.
    pub fn taken(&self) -> u32
        ensures taken { result ≡ (shows self.now).taken }
        ensures fifo { IsFifo (shows self.now) }
    {
        self.places.taken
    }

    /// The first frame, as it lies in the packet buffer; none where no frame waits.
    pub fn first_frame(&self) -> Option<StoredFrame<'_>>
        ensures none { IsNone result ↔ (length (shows self.now).frames ≡ 0) }
        ensures lies { IfSome result (LiesSo (first (shows self.now))) }
        ensures least { IfSome result (λ frame. 56 ≤ length frame.front.now + length frame.back.now) }
    {
        if self.places.count == 0 {
            return None;
        }
        let entry = self.first_entry();
        let (front, back) = pieces(
            self.octets.as_slice(),
            self.places.head as usize,
            entry.len as usize,
        );
        Some(StoredFrame {
            front,
            back,
            tag: entry.tag,
        })
    }

    /// The newest frame, as it lies in the packet buffer; none where no frame waits.
    pub fn last_frame(&self) -> Option<StoredFrame<'_>>
        ensures none { IsNone result ↔ (length (shows self.now).frames ≡ 0) }
        ensures lies { IfSome result (LiesSo (last (shows self.now))) }
    {
        if self.places.count == 0 {
            return None;
        }
        let entry = self.last_entry();
        let len = entry.len as u32;
        let at = wrap(OCTETS, self.places.head + (self.places.used - len));
        let (front, back) = pieces(self.octets.as_slice(), at as usize, len as usize);
        Some(StoredFrame {
            front,
            back,
            tag: entry.tag,
        })
    }

    /// Whether no frame waits.
    pub(crate) fn is_empty(&self) -> bool
        ensures { IsTrue result ↔ (length (shows self.now).frames ≡ 0) }
    {
        self.places.count == 0
    }

    /// The entry of the first frame.
    pub(crate) fn first_entry(&self) -> Entry
        requires { 0 < length (shows self.now).frames }
        ensures { IsFirst self.now result }
    {
        self.entries[self.places.first as usize]
    }

    /// The entry of the newest frame.
    fn last_entry(&self) -> Entry
        requires { 0 < length (shows self.now).frames }
        ensures { IsLast self.now result }
    {
        let index = wrap(ENTRIES, self.places.first + (self.places.count - 1));
        self.entries[index as usize]
    }

    /// How many octets of the first frame are not in guest memory yet.
    pub fn rest(&self) -> u32
        requires { 0 < length (shows self.now).frames }
        ensures rest { result ≡ rest (shows self.now) }
        ensures some { 0 < result }
    {
        self.first_entry().len as u32 - self.places.taken
    }

    /// The places with `count` octets more of the first frame in guest memory.
    #[inline(always)]
    fn places_after(&self, count: u32) -> Places
        requires some { 0 < length (shows self.now).frames }
        requires count { count ≤ rest (shows self.now) }
        ensures moves { IsMove self.now result count }
        ensures back { moved_back (record self.now { places = result }) count (nat_le (rest (shows self.now)) count)
            ≡ self.now.places }
    {
        let places = self.places;
        let len = self.first_entry().len as u32;
        if places.taken + count < len {
            return Places {
                taken: places.taken + count,
                ..places
            };
        }
        Places {
            head: wrap(OCTETS, places.head + len),
            first: wrap(ENTRIES, places.first + 1),
            count: places.count - 1,
            taken: 0,
            used: places.used - len,
        }
    }

    /// The places with `count` octets less in guest memory, with which the first frame left or did not.
    #[inline(always)]
    fn places_before(&self, count: u32, left: bool) -> Places
        requires { IsSound (record self.now { places = moved_back self.now count left }) }
        ensures { result ≡ moved_back self.now count left }
    {
        let places = self.places;
        if !left {
            return Places {
                taken: places.taken.saturating_sub(count),
                ..places
            };
        }
        let first = back(ENTRIES, 1, places.first);
        let len = self.entries[first as usize].len as u32;
        Places {
            head: back(OCTETS, len, places.head),
            first,
            count: places.count + 1,
            taken: len.saturating_sub(count),
            used: places.used + len,
        }
    }

    /// Writes the piece of the first frame, and then the end of its descriptor back. What they overwrite is saved before other old
    /// octets: both are read before either is written, since they may lie over each other.
    #[inline(always)]
    pub(crate) fn deliver(
        &mut self,
        memory: &mut GuestMemory,
        piece: &OldPiece,
        end: &[u8; WRITTEN_OCTETS],
        old: &mut OldOctets,
    )
        requires some { 0 < length (shows self.old).frames }
        requires count { piece.now.len ≤ rest (shows self.old) }
        requires left { piece.now.left ≡ nat_le (rest (shows self.old)) piece.now.len }
        requires held { IsHeld memory.old piece.now.buffer piece.now.len }
        requires end_held { IsHeld memory.old piece.now.end_at 8 }
        requires made { IsMade memory.old piece.now.buffer piece.now.len }
        requires end_made { IsMade memory.old piece.now.end_at 8 }
        requires old_room { saved_of piece.now ≤ length old.old.octets }
        requires eight { length end.now ≡ 8 }
        ensures shown { shows self.new ≡ after_delivery (shows self.old) piece.now.len }
        ensures base { memory.new.base ≡ memory.old.base }
        ensures octets { memory.new.octets ≡ delivered (shows self.old) memory.old.octets piece.now end.now }
        ensures saves { Saves (saved_of piece.now) old.old old.new }
        ensures reverses { ReversesStep self.old self.new memory.old memory.new (step_patch piece.now old.new) }
    {
        let (buffer, end_at) = (piece.buffer, piece.end_at);
        memory.save(end_at, WRITTEN_OCTETS, old);
        memory.save(buffer, piece.len as usize, old);
        self.write_next(memory, buffer, piece.len as u32);
        memory.write(end_at, end);
        self.places = self.places_after(piece.len as u32);
    }

    /// Writes the next octets of the first frame into guest memory, from `addr` on.
    #[inline(always)]
    fn write_next(&self, memory: &mut GuestMemory, addr: u64, count: u32)
        requires some { 0 < length (shows self.now).frames }
        requires count { count ≤ rest (shows self.now) }
        requires held { IsHeld memory.old addr count }
        requires made { IsMade memory.old addr count }
        ensures base { memory.new.base ≡ memory.old.base }
        ensures octets { memory.new.octets ≡ put memory.old.octets addr (next (shows self.now) count) }
        ensures made { memory.new.made ≡ memory.old.made }
    {
        let at = wrap(OCTETS, self.places.head + self.places.taken);
        let (front, back) = pieces(self.octets.as_slice(), at as usize, count as usize);
        memory.write_both(addr, front, back);
    }

    /// Takes back the change that gave out this record. It takes no memory.
    pub fn take_back(&mut self, memory: &mut GuestMemory, taken: RxUndo)
        requires whole { IsWhole taken }
        requires fits { Fits self.old memory.old (record_of taken) }
        ensures fifo { self.new ≡ undo_fifo self.old (record_of taken) }
        ensures memory { memory.new ≡ undo_memory memory.old (record_of taken) }
    {
        match taken {
            RxUndo::Nothing => {}
            RxUndo::Places(places) => self.put_places_back(places),
            RxUndo::Frame(frame, old) => self.put_frame_back(&frame, &old.newest()),
            RxUndo::Step(piece, old) => self.put_step_back(memory, &piece, &old.newest()),
        }
    }

    /// Takes back the arrival that saved the first of these octets, as many as were stored. It takes no memory.
    pub fn put_frame_back(&mut self, taken: &OldFrame, old: &Saved<'_>)
        requires whole { taken.now.len ≤ length old.now.octets }
        requires fits { FitsFrame self.old (frame_patch taken.now old.now) }
        ensures { self.new ≡ with_patch self.old (frame_patch taken.now old.now) }
    {
        let places = self.places;
        let count = places.count - 1;
        let used = places.used - taken.len as u32;
        let at = wrap(OCTETS, places.head + used);
        let (front, back) = old.first(taken.len as usize);
        put_both(&mut self.octets, at as usize, front, back);
        let index = wrap(ENTRIES, places.first + count);
        self.entries[index as usize] = taken.entry;
        self.places = Places {
            count,
            used,
            ..places
        };
    }

    /// Takes back the step that saved the first of these octets: those of its buffer are put back, and then those of
    /// the end of its descriptor. It takes no memory.
    pub fn put_step_back(&mut self, memory: &mut GuestMemory, taken: &OldPiece, old: &Saved<'_>)
        requires whole { saved_of taken.now ≤ length old.now.octets }
        requires fits { FitsStep self.old memory.old (step_patch taken.now old.now) }
        ensures fifo { self.new
            ≡ record self.old { places = places_before self.old (step_patch taken.now old.now) } }
        ensures memory { memory.new ≡ with_both memory.old (step_patch taken.now old.now) }
    {
        let len = taken.len as usize;
        memory.put_saved_back(taken.buffer, len, old);
        memory.put_saved_back(taken.end_at, WRITTEN_OCTETS, &old.behind(len));
        self.places = self.places_before(taken.len as u32, taken.left);
    }
}
