//! A machine with its trail.
ghost use Rattle.std.specs.Prelude.{◌≡◌, ◌==◌, ◌<◌, ◌≤◌, ◌↔◌, ◌∷◌, [], length, min, take, slice_get};
ghost use Rattle.std.specs.Prelude.{IfOk, IfErr, IfSome, IsNone, OnOk, OnErr};
ghost use Rattle.em_regs.specs.Table.{IsRegOf, offset_of};
ghost use Rattle.em_step.specs.Event.{plain, reads, writes};
ghost use Rattle.em_step.specs.Step.{Refuses};
ghost use Rattle.em_journal.specs.View.{after_backs, sent_before, states};
ghost use Rattle.em_trail.specs.Trail.{Noted, TakesBack, TellsAt, starting, trail_without};

use crate::dma::{Dma, dma_of};
use crate::note::{Note, note_of};
use circular_buffer::HeapCircularBuffer;
use em_journal::{Empty, Machine};
use em_regs::{Profile, Reg};
use em_step::{Answer, Event, Refusal};
use std::alloc::{AllocError, Global};
use std::marker::Model;

/// A machine, and a note of each event that it can take back.
///
/// A note goes when the record of its event goes: when the event is taken back, and when the journal drops its
/// oldest record.
#[derive(Drop)]
pub struct Traced {
    machine: Machine,
    // The newest first. As many of them as the journal has records are the trail; others may lie behind them until
    // newer ones take their places.
    notes: HeapCircularBuffer<Note>,
}

impl Model for Traced {
    ghost use Rattle.em_journal.specs.View.{view_code};
    ghost use Rattle.em_trail.specs.Trail.{Trail, HoldsTrail, newest, trail_code};
    ghost use Rattle.em_trail.specs.contracts.note.Note as one;

    ghost Value = { Trail };

    ghost coded = { trail_code view_code one.the_row.coded };

    ghost view = { λ t. record { view = t.machine; notes = newest t.machine t.notes.items } };

    ghost invariant = { λ t. HoldsTrail t.notes t.machine };
}

impl Traced {
    /// A machine with an empty journal, and its empty trail; all places of its notes are made here. Where memory is
    /// refused, the machine comes back as it was.
    pub fn new(alloc: Global, machine: Machine) -> Result<Traced, (Machine, Refusal)>
        requires { machine.past ≡ [] }
        ensures ok { IfOk result (λ traced. traced ≡ starting machine) }
        ensures memory { IfErr result (λ e. e.1 ≡ Refusal.Memory) }
        ensures same { IfErr result (λ e. e.0 ≡ machine) }
    {
        match HeapCircularBuffer::with_capacity(alloc, machine.places()) {
            Ok(notes) => Ok(Traced { machine, notes }),
            Err(_) => Err((machine, Refusal::Memory)),
        }
    }

    /// The same machine once more, with its trail, in memory of its own.
    pub fn copy(&self) -> Result<Traced, AllocError>
        ensures { IfOk result (λ copy. copy ≡ self.now) }
    {
        let machine = self.machine.copy()?;
        let notes = copy_notes(&self.notes)?;
        Ok(Traced { machine, notes })
    }

    /// Performs an event, and notes it with a tag of the caller's.
    ///
    /// It is refused as `Machine::perform` refuses it, and for no other cause: a note takes no memory. A refused event
    /// changes nothing.
    #[inline(always)]
    pub fn perform(&mut self, tag: u64, event: Event<'_>) -> Result<Answer, Refusal>
        ensures ok { IfOk result (λ answer. Noted self.old self.new tag (plain event.entry) answer) }
        // a performed event can always be taken back
        ensures kept { OnOk result (0 < length self.new.notes) }
        ensures past { OnOk result (0 < length self.new.view.past) }
        ensures err { IfErr result (λ refusal. Refuses self.old.view.present (plain event.entry) refusal) }
        ensures same { OnErr result (self.new ≡ self.old) }
    {
        let dma = dma_of(&self.machine, event);
        let answer = self.machine.perform(event)?;
        // A full ring drops its oldest note. That one is not needed, since there are no more records than places.
        prove!(self.machine.can_go_back() <= self.notes.capacity());
        self.notes.push_front(note_of(dma, event, answer, tag));
        Ok(answer)
    }

    /// Software reads a register that each profile has: the event of a read at its offset.
    #[inline(always)]
    pub fn read_register(&mut self, tag: u64, reg: Reg) -> u32
        requires { IsRegOf Profile.Table reg }
        ensures noted { Noted self.old self.new tag (reads (offset_of reg)) (Answer.Value result) }
        ensures past { 0 < length self.new.view.past }
    {
        let value = self.machine.read_register(reg);
        prove!(self.machine.can_go_back() <= self.notes.capacity());
        self.notes.push_front(note_of(
            Dma::none(),
            Event::Read(reg.offset()),
            Answer::Value(value),
            tag,
        ));
        value
    }

    /// Software writes a register that each profile has: the event of a write at its offset. Refused only as Memory,
    /// where it is a reset.
    #[inline(always)]
    pub fn write_register(&mut self, tag: u64, reg: Reg, value: u32) -> Result<(), Refusal>
        requires { IsRegOf Profile.Table reg }
        ensures ok { OnOk result (Noted self.old self.new tag (writes (offset_of reg) value) Answer.Done) }
        ensures past { OnOk result (0 < length self.new.view.past) }
        ensures err { IfErr result (λ refusal. Refuses self.old.view.present (writes (offset_of reg) value) refusal) }
        ensures same { OnErr result (self.new ≡ self.old) }
    {
        self.machine.write_register(reg, value)?;
        prove!(self.machine.can_go_back() <= self.notes.capacity());
        self.notes.push_front(note_of(
            Dma::none(),
            Event::Write(reg.offset(), value),
            Answer::Done,
            tag,
        ));
        Ok(())
    }

    /// Takes the newest events back, at most so many, and gives how many.
    pub fn back_by(&mut self, most: usize) -> usize
        ensures count { result ≡ min most (length self.old.view.past) }
        ensures view { self.new.view ≡ after_backs most self.old.view }
    {
        for done in 0..most {
            match self.back() {
                Ok(_) => {}
                Err(Empty) => return done,
            }
        }
        most
    }

    /// Takes the newest event back, and gives its note. Refused exactly where there is none.
    #[inline(always)]
    pub fn back(&mut self) -> Result<Note, Empty>
        ensures ok { IfOk result (TakesBack self.old self.new) }
        ensures empty { OnErr result (self.old.notes ≡ []) }
        ensures past { OnErr result (self.old.view.past ≡ []) }
        ensures same { OnErr result (self.new ≡ self.old) }
    {
        match self.machine.back() {
            Ok(()) => {}
            Err(Empty) => return Err(Empty),
        }
        let Some(note) = self.notes.pop_front() else {
            unreachable!();
        };
        Ok(note)
    }

    /// Lets go of the octets of frames that were sent and that no step back takes off the wire, as the machine does, and
    /// gives how many frames these are. Each note stays, and tells of the same event.
    pub fn let_frames_go(&mut self) -> usize
        ensures count { result ≡ sent_before self.old.view }
        ensures trail { self.new ≡ trail_without result self.old }
    {
        self.machine.let_frames_go()
    }

    /// The machine, to look at.
    pub fn machine(&self) -> &Machine
        ensures { result.now ≡ self.now.view }
    {
        &self.machine
    }

    /// The note of an event that can be taken back, that of the newest at 0; none where there are not so many.
    pub fn note(&self, k: usize) -> Option<Note>
        ensures value { result ≡ slice_get self.now.notes k }
        ensures none { IsNone result ↔ (length self.now.view.past ≤ k) }
        // it tells of the event that led from the state behind to the state k steps back
        ensures tells { IfSome result (λ note. TellsAt (states self.now.view) k note) }
    {
        if k < self.len() {
            self.notes.get(k).copied()
        } else {
            None
        }
    }

    /// How many notes there are: as many as events that can be taken back.
    pub fn len(&self) -> usize
        ensures notes { result ≡ length self.now.notes }
        ensures past { result ≡ length self.now.view.past }
    {
        self.machine.can_go_back()
    }

    /// Whether no event can be taken back.
    pub fn is_empty(&self) -> bool
        ensures { result ≡ (length self.now.view.past == 0) }
    {
        self.len() == 0
    }
}

/// The same notes in a ring of their own, with as many places.
fn copy_notes(notes: &HeapCircularBuffer<Note>) -> Result<HeapCircularBuffer<Note>, AllocError>
    ensures { IfOk result (λ copy. copy ≡ notes.now) }
{
    let mut copy = HeapCircularBuffer::with_capacity(*notes.allocator(), notes.capacity())?;
    let (front, back) = notes.as_slices();
    copy.fill_from_slice(front);
    copy.fill_from_slice(back);
    Ok(copy)
}
