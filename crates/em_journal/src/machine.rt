//! The machine: an adapter with a journal of its latest events.
//!
//! `perform` is the way in. Which function an event then runs through, here; in `Adapter`; and below:
//!
//! - an access at an offset: `read`, `write`, where `Reg::of_offset_in` finds the register, and by its kind
//!   - one that stores: `read_stored`, `write_stored`; the same in `Adapter`; `RegFile::look`, `put_in`
//!   - an interrupt register, a counter: `read_latched`, `write_latched`; the same; `Latches::read`, `write`
//!   - STATUS, EECD and MDIC, and a write of CTRL or EERD: `read_other`, `write_other`; `read_register`,
//!     `write_register`; `status`, `write_control`, `write_eerd`, `write_pins`, `command_phy`
//!   - where it finds none: `access_none`; the same
//! - a memory write: `poke`; `poke`; `GuestMemory::write_saving`
//! - an arriving frame: `arrive`; `arrive`, `dispose`, `judge`, `admit`, `accept`; em_filter, `Fifo::store`
//! - a change of the link: `set_link`; `set_link`; `Latches::raise`
//! - a step of an engine: `receive_step`, `transmit_step`; the same; `Fifo::receive`, em_tx's `transmit`
//!
//! Each function of `Adapter` gives a `Record` too, and saves the octets that go with it in the journal's ring of octets,
//! which `Records::make_ready` sees to. `Records::keep` puts the record first in the journal, and `back` gives it to
//! `Adapter::put_back` with those octets: the words of the latches by `Latches::put_back`, and then its effect.
ghost use Rattle.std.specs.Prelude.{◌≡◌, ◌+◌, ◌<◌, ◌≤◌, ◌↔◌, IfOk, IfErr, OnOk, OnErr, IsErrOf, IsTrue};
ghost use Rattle.std.specs.Prelude.{◌/◌, ℕ, IfSome, IsNone, None};
ghost use Rattle.std.specs.Prelude.{length, min, replicate, slice_get};
ghost use Rattle.std.specs.Option.{option_map};
ghost use Rattle.em_mem.specs.Memory.{LiesIn, leaves, part};
ghost use Rattle.em_regs.specs.Table.{IsReg, IsRegOf, has_reg, offset_of, reg_of};
ghost use Rattle.em_regs.specs.RegFile.{IsStored, OnlyStores};
ghost use Rattle.em_latch.specs.Latches.{IsAsserted, IsLatched};
ghost use Rattle.em_rx.specs.Fifo.{first, last, octets_in};
ghost use Rattle.em_rx.specs.StoredFrame.{LiesSo};
ghost use Rattle.em_step.specs.Access.{gives};
ghost use Rattle.em_step.specs.Cells.{shows};
ghost use Rattle.em_step.specs.Cost.{least_cost};
ghost use Rattle.em_step.specs.Loops.{loops};
ghost use Rattle.em_step.specs.Event.{plain, reads, writes, pokes, arrives, links, receives, transmits};
ghost use Rattle.em_journal.specs.Budget.{IsBudget};
ghost use Rattle.em_journal.specs.History.{refuses, goes_back, is_empty, Does, Run, WasJournalled};
ghost use Rattle.em_journal.specs.Record.{IsRecordAt};
ghost use Rattle.em_journal.specs.View.{HaveMemoryOf, after_backs, opening, sent_before, view_without};

use crate::records::{Records, first_octets, most_records};
use crate::refusal::{Empty, JournalRefusal};
use circular_buffer::HeapCircularBuffer;
use em_regs::{Kind, Profile, Reg};
use em_rx::StoredFrame;
use em_step::{Adapter, Answer, Event, LEAST_COST, Past, Refusal};
use std::alloc::{AllocError, Global};
use std::marker::Model;

/// The least budget of a journal, in octets of cost: the dearest event, so that the newest one
/// always fits.
pub const LEAST_BUDGET: u64 = 65_536;

/// The greatest budget of a journal, in octets of cost.
pub const MOST_BUDGET: u64 = 16_777_216;

/// An adapter with the records that take its latest events back, as many as the budget holds.
#[derive(Drop)]
pub struct Machine {
    pub(crate) adapter: Adapter,
    records: Records,
    budget: u64,
}

impl Model for Machine {
    ghost use Rattle.em_journal.specs.Records.{places_in, view_of, undos_of, AreSaved, IsJournal};
    ghost use Rattle.em_journal.specs.View.{View, view_code};

    ghost Value = { View };

    ghost coded = { view_code };

    ghost view = { λ m. view_of m.budget m.adapter (undos_of m.records.ring.items m.records.octets) };

    ghost invariant = { λ m.
        IsJournal m.adapter (undos_of m.records.ring.items m.records.octets)
        (places_in m.records.ring.capacity m.records.larger) m.budget m.records.used × AreSaved m.records.ring.items m.records.octets m.records.waits m.budget m.records.used };
}

impl Machine {
    /// A machine over an adapter, with an empty journal; all places of its records are made here, and the room for
    /// the octets that they save.
    ///
    /// The budget is counted in octets of cost. It is refused as Budget outside 65,536 to
    /// 16,777,216, before any memory is taken. With a refusal the adapter comes back as it was.
    pub fn new(
        alloc: Global,
        adapter: Adapter,
        budget: u64,
    ) -> Result<Machine, (Adapter, JournalRefusal)>
        ensures ok { IfOk result (λ machine. machine ≡ opening budget (shows adapter)) }
        ensures budget { OnOk result (IsBudget budget) }
        ensures refused { IfErr result (λ e. (e.1 ≡ JournalRefusal.Budget) ↔ (IsBudget budget → ⊥)) }
        ensures memory { IfErr result (λ e. (e.1 ≡ JournalRefusal.Memory) → IsBudget budget) }
        ensures same { IfErr result (λ e. e.0 ≡ adapter) }
    {
        if !is_budget(budget) {
            return Err((adapter, JournalRefusal::Budget));
        }
        // Half of the places at first, so that a machine of few records uses little memory.
        let places = most_records(budget);
        let Ok(ring) = HeapCircularBuffer::with_capacity(alloc, places / 2) else {
            return Err((adapter, JournalRefusal::Memory));
        };
        let Ok(larger) = HeapCircularBuffer::with_capacity(alloc, places) else {
            return Err((adapter, JournalRefusal::Memory));
        };
        let Ok((octets, waits)) = first_octets(alloc, budget) else {
            return Err((adapter, JournalRefusal::Memory));
        };
        let records = Records {
            ring,
            larger: Some(larger),
            octets,
            waits,
            used: 0,
        };
        Ok(Machine {
            adapter,
            records,
            budget,
        })
    }

    /// The same machine once more, in memory of its own: it shows the same, and goes back as far, to the same states.
    /// From then on neither knows what becomes of the other.
    pub fn copy(&self) -> Result<Machine, AllocError>
        ensures { IfOk result (λ copy. copy ≡ self.now) }
    {
        let adapter = self.adapter.copy()?;
        let copies = self.records.copy()?;
        Ok(Machine {
            adapter,
            records: copies,
            budget: self.budget,
        })
    }

    /// Performs one event and journals it; the oldest records go that the budget no longer holds.
    ///
    /// A refused event is not journalled: the machine stays as it was, also in how far it can go
    /// back.
    #[inline(always)]
    pub fn perform(&mut self, event: Event<'_>) -> Result<Answer, Refusal>
        ensures ok { IfOk result (λ answer. WasJournalled self.old (plain event.entry) answer self.new) }
        ensures err { IfErr result (λ refusal. Does self.old (refuses (plain event.entry) refusal) self.new) }
    {
        match event {
            Event::Read(offset) => {
                let value = self.read(offset)?;
                Ok(Answer::Value(value))
            }
            Event::Write(offset, value) => {
                self.write(offset, value)?;
                Ok(Answer::Done)
            }
            Event::Poke(addr, octets) => self.poke(addr, octets),
            Event::Arrive(frame) => self.arrive(frame),
            Event::Link(up) => self.set_link(up),
            Event::RxStep => self.receive_step(),
            Event::TxStep => self.transmit_step(),
        }
    }

    // An event of each kind has a function of its own, so that none pays for what another one needs.

    /// Software reads at an offset: the register there, if there is one.
    #[inline(never)]
    fn read(&mut self, offset: u32) -> Result<u32, Refusal>
        ensures ok { IfOk result (λ value. WasJournalled self.old (reads offset) (Answer.Value value) self.new) }
        ensures err { IfErr result (λ refusal. Does self.old (refuses (reads offset) refusal) self.new) }
    {
        match Reg::of_offset_in(self.profile(), offset) {
            Some(reg) => Ok(self.read_found(reg)),
            None => {
                self.access_none(offset)?;
                Ok(0)
            }
        }
    }

    /// Software writes a value at an offset: to the register there, if there is one.
    #[inline(never)]
    fn write(&mut self, offset: u32, value: u32) -> Result<(), Refusal>
        ensures ok { OnOk result (WasJournalled self.old (writes offset value) Answer.Done self.new) }
        ensures err { IfErr result (λ refusal. Does self.old (refuses (writes offset value) refusal) self.new) }
    {
        match Reg::of_offset_in(self.profile(), offset) {
            Some(reg) => self.write_found(reg, value),
            None => self.access_none(offset),
        }
    }

    /// Software reads or writes at an offset where no register lies.
    #[cold]
    #[inline(never)]
    fn access_none(&mut self, offset: u32) -> Result<(), Refusal>
        requires { reg_of self.old.present.profile offset ≡ None }
        ensures read { OnOk result (WasJournalled self.old (reads offset) (Answer.Value 0) self.new) }
        ensures write { OnOk result ((v : ℕ) → WasJournalled self.old (writes offset v) Answer.Done self.new) }
        ensures unread { IfErr result (λ refusal. Does self.old (refuses (reads offset) refusal) self.new) }
        ensures unwritten { IfErr result (λ refusal. (v : ℕ) →
            Does self.old (refuses (writes offset v) refusal) self.new) }
    {
        let newest = self.adapter.access_none(offset)?;
        self.records
            .keep(&mut self.adapter, self.budget, LEAST_COST, newest);
        Ok(())
    }

    /// Software reads a register that each profile has: the event of a read at its offset.
    #[inline(always)]
    pub fn read_register(&mut self, reg: Reg) -> u32
        requires { IsRegOf Profile.Table reg }
        ensures { WasJournalled self.old (reads (offset_of reg)) (Answer.Value result) self.new }
    {
        self.read_found(reg)
    }

    /// Software writes a register that each profile has: the event of a write at its offset. Refused only as Memory,
    /// where it is a reset.
    #[inline(always)]
    pub fn write_register(&mut self, reg: Reg, value: u32) -> Result<(), Refusal>
        requires { IsRegOf Profile.Table reg }
        ensures ok { OnOk result (WasJournalled self.old (writes (offset_of reg) value) Answer.Done self.new) }
        ensures err { IfErr result (λ refusal.
            Does self.old (refuses (writes (offset_of reg) value) refusal) self.new) }
    {
        self.write_found(reg, value)
    }

    /// Software reads a register that the machine's profile has.
    #[inline(always)]
    fn read_found(&mut self, reg: Reg) -> u32
        requires { IsRegOf self.old.present.profile reg }
        ensures { WasJournalled self.old (reads (offset_of reg)) (Answer.Value result) self.new }
    {
        match reg.row().kind {
            Kind::Stored | Kind::Control | Kind::EepromRead => self.read_stored(reg),
            Kind::Interrupt | Kind::Counter => self.read_latched(reg),
            Kind::Status | Kind::EepromPins | Kind::PhyCommand | Kind::Uncounted => self.read_other(
                reg,
            ),
        }
    }

    /// Software writes a register that the machine's profile has.
    #[inline(always)]
    fn write_found(&mut self, reg: Reg, value: u32) -> Result<(), Refusal>
        requires { IsRegOf self.old.present.profile reg }
        ensures ok { OnOk result (WasJournalled self.old (writes (offset_of reg) value) Answer.Done self.new) }
        ensures err { IfErr result (λ refusal.
            Does self.old (refuses (writes (offset_of reg) value) refusal) self.new) }
    {
        match reg.row().kind {
            Kind::Stored => self.write_stored(reg, value),
            Kind::Interrupt | Kind::Counter => self.write_latched(reg, value),
            Kind::Control
            | Kind::EepromRead
            | Kind::Status
            | Kind::EepromPins
            | Kind::PhyCommand
            | Kind::Uncounted => self.write_other(reg, value)?,
        }
        Ok(())
    }

    // Most accesses are of a register that stores what is written and does nothing else, and their records
    // hold no words of the latches. The others stand apart, so that these make no room for such words; and
    // those that can reset the adapter apart from both.

    #[inline(always)]
    fn read_stored(&mut self, reg: Reg) -> u32
        requires stored { IsStored reg }
        requires has { IsTrue (has_reg self.old.present.profile reg) }
        ensures { WasJournalled self.old (reads (offset_of reg)) (Answer.Value result) self.new }
    {
        let (value, newest) = self.adapter.read_stored(reg);
        self.records
            .keep(&mut self.adapter, self.budget, LEAST_COST, newest);
        value
    }

    #[inline(never)]
    fn read_latched(&mut self, reg: Reg) -> u32
        requires reg { IsReg reg }
        requires latched { IsLatched reg }
        requires has { IsTrue (has_reg self.old.present.profile reg) }
        ensures { WasJournalled self.old (reads (offset_of reg)) (Answer.Value result) self.new }
    {
        let (value, newest) = self.adapter.read_latched(reg);
        self.records
            .keep(&mut self.adapter, self.budget, LEAST_COST, newest);
        value
    }

    #[cold]
    #[inline(never)]
    fn read_other(&mut self, reg: Reg) -> u32
        requires { IsRegOf self.old.present.profile reg }
        ensures { WasJournalled self.old (reads (offset_of reg)) (Answer.Value result) self.new }
    {
        let (value, newest) = self.adapter.read_register(reg);
        self.records
            .keep(&mut self.adapter, self.budget, LEAST_COST, newest);
        value
    }

    #[inline(always)]
    fn write_stored(&mut self, reg: Reg, value: u32)
        requires only { OnlyStores reg }
        requires has { IsTrue (has_reg self.old.present.profile reg) }
        ensures { WasJournalled self.old (writes (offset_of reg) value) Answer.Done self.new }
    {
        let newest = self.adapter.write_stored(reg, value);
        self.records
            .keep(&mut self.adapter, self.budget, LEAST_COST, newest);
    }

    #[inline(never)]
    fn write_latched(&mut self, reg: Reg, value: u32)
        requires reg { IsReg reg }
        requires latched { IsLatched reg }
        requires has { IsTrue (has_reg self.old.present.profile reg) }
        ensures { WasJournalled self.old (writes (offset_of reg) value) Answer.Done self.new }
    {
        let newest = self.adapter.write_latched(reg, value);
        self.records
            .keep(&mut self.adapter, self.budget, LEAST_COST, newest);
    }

    #[cold]
    #[inline(never)]
    fn write_other(&mut self, reg: Reg, value: u32) -> Result<(), Refusal>
        requires { IsRegOf self.old.present.profile reg }
        ensures ok { OnOk result (WasJournalled self.old (writes (offset_of reg) value) Answer.Done self.new) }
        ensures err { IfErr result (λ refusal.
            Does self.old (refuses (writes (offset_of reg) value) refusal) self.new) }
    {
        let newest = self.adapter.write_register(reg, value)?;
        let cost = newest.cost();
        self.records
            .keep(&mut self.adapter, self.budget, cost, newest);
        Ok(())
    }

    /// Software writes octets to guest memory.
    #[inline(never)]
    fn poke(&mut self, addr: u64, octets: &[u8]) -> Result<Answer, Refusal>
        ensures ok { IfOk result (λ answer. WasJournalled self.old (pokes addr octets.now) answer self.new) }
        ensures err { IfErr result (λ refusal. Does self.old (refuses (pokes addr octets.now) refusal) self.new) }
    {
        self.records.make_ready(self.budget);
        let (answer, newest) = self.adapter.poke(addr, octets, &mut self.records.octets)?;
        let cost = newest.cost();
        self.records
            .keep(&mut self.adapter, self.budget, cost, newest);
        Ok(answer)
    }

    /// A frame arrives.
    #[inline(never)]
    fn arrive(&mut self, frame: &[u8]) -> Result<Answer, Refusal>
        ensures ok { IfOk result (λ answer. WasJournalled self.old (arrives frame.now) answer self.new) }
        ensures err { IfErr result (λ refusal. Does self.old (refuses (arrives frame.now) refusal) self.new) }
    {
        self.records.make_ready(self.budget);
        let (answer, newest) = self.adapter.arrive(frame, &mut self.records.octets)?;
        let cost = newest.cost();
        self.records
            .keep(&mut self.adapter, self.budget, cost, newest);
        Ok(answer)
    }

    /// The link goes up or down.
    #[inline(never)]
    fn set_link(&mut self, up: bool) -> Result<Answer, Refusal>
        ensures ok { IfOk result (λ answer. WasJournalled self.old (links up) answer self.new) }
        ensures err { IfErr result (λ refusal. Does self.old (refuses (links up) refusal) self.new) }
    {
        let (answer, newest) = self.adapter.set_link(up)?;
        self.records
            .keep(&mut self.adapter, self.budget, LEAST_COST, newest);
        Ok(answer)
    }

    /// The receive engine handles a descriptor.
    #[inline(never)]
    fn receive_step(&mut self) -> Result<Answer, Refusal>
        ensures ok { IfOk result (λ answer. WasJournalled self.old receives answer self.new) }
        ensures err { IfErr result (λ refusal. Does self.old (refuses receives refusal) self.new) }
    {
        self.records.make_ready(self.budget);
        let (answer, newest) = self.adapter.receive_step(&mut self.records.octets)?;
        let cost = newest.cost();
        self.records
            .keep(&mut self.adapter, self.budget, cost, newest);
        Ok(answer)
    }

    /// The transmit engine handles a descriptor.
    #[inline(never)]
    fn transmit_step(&mut self) -> Result<Answer, Refusal>
        ensures ok { IfOk result (λ answer. WasJournalled self.old transmits answer self.new) }
        ensures err { IfErr result (λ refusal. Does self.old (refuses transmits refusal) self.new) }
    {
        let (answer, newest) = self.adapter.transmit_step()?;
        let cost = newest.cost();
        self.records
            .keep(&mut self.adapter, self.budget, cost, newest);
        Ok(answer)
    }

    /// Takes the newest event of the journal back. Refused exactly where the journal is empty.
    #[inline(always)]
    pub fn back(&mut self) -> Result<(), Empty>
        ensures ok { OnOk result (Does self.old goes_back self.new) }
        ensures empty { OnErr result (Does self.old is_empty self.new) }
    {
        match self.records.ring.pop_front() {
            Some(newest) => {
                let (cost, held) = (newest.cost(), newest.held());
                self.adapter.put_back(newest, &self.records.octets.newest());
                self.records.octets.give_up(held);
                self.records.used -= u64::from(cost);
                Ok(())
            }
            None => Err(Empty),
        }
    }

    /// Takes events back, the newest first, until `n` are done or the journal is empty, and gives
    /// how many it took back.
    pub fn back_by(&mut self, n: usize) -> usize
        ensures count { result ≡ min n (length self.old.past) }
        ensures view { self.new ≡ after_backs n self.old }
        ensures run { Run self.old (replicate result goes_back) self.new }
    {
        for done in 0..n {
            match self.back() {
                Ok(()) => {}
                Err(Empty) => return done,
            }
        }
        n
    }

    /// How many events can be taken back.
    pub fn can_go_back(&self) -> usize
        ensures past { result ≡ length self.now.past }
        ensures costs { result ≡ length self.now.costs }
        ensures places { result ≤ self.now.budget / least_cost }
    {
        self.records.ring.len()
    }

    /// How many events the journal holds at most: as many as its budget has of the least cost of a record.
    pub fn places(&self) -> usize
        ensures { result ≡ self.now.budget / least_cost }
    {
        most_records(self.budget)
    }

    /// The record of the event that step back number `k` from here takes back, the newest one's at 0; none where the
    /// journal has no such event. The machine stays where it is.
    #[inline(always)]
    pub fn record(&self, k: usize) -> Option<Past<'_>>
        ensures found { IfSome result (λ past. IsRecordAt self.now k past) }
        ensures none { IsNone result ↔ length self.now.past ≤ k }
    {
        let found = self.records.ring.get(k)?;
        Some(Past::new(found, &self.records.octets))
    }

    /// The adapter, to look at.
    pub fn adapter(&self) -> &Adapter
        ensures { shows result.now ≡ self.now.present }
    {
        &self.adapter
    }

    /// The journal's budget in octets of cost.
    pub fn budget(&self) -> u64
        ensures budget { result ≡ self.now.budget }
        ensures allowed { IsBudget result }
    {
        self.budget
    }

    /// Which profile it is of.
    #[inline(always)]
    pub fn profile(&self) -> Profile
        ensures { result ≡ self.now.present.profile }
    {
        self.adapter.profile()
    }

    /// Whether frames that are sent come back, by RCTL.LBM or by the PHY's word 0: never in the first profile. They are on
    /// the wire, as others are, and who carries it lets them arrive.
    pub fn loops(&self) -> bool
        ensures { result ≡ loops self.now.present }
    {
        self.adapter.loops()
    }

    /// What a read of the register at an offset (octets) would give, with nothing cleared; none
    /// where its profile has no register there.
    pub fn look(&self, offset: u32) -> Option<u32>
        ensures { result ≡ option_map (gives self.now.present) (reg_of self.now.present.profile offset) }
    {
        self.adapter.look(offset)
    }

    /// Copies the octets of guest memory at an address out. Refused as Range where they leave
    /// memory; `out` then stays.
    #[inline(always)]
    pub fn peek(&self, addr: u64, out: &mut [u8]) -> Result<(), Refusal>
        ensures ok { OnOk result (out.new ≡ part self.now.present.memory addr (length out.old)) }
        ensures held { OnOk result (LiesIn self.now.present.base self.now.present.memory addr (length out.old)) }
        ensures range { IsErrOf result Refusal.Range
            ↔ IsTrue (leaves self.now.present.base self.now.present.memory addr (length out.old)) }
        ensures only { IfErr result (λ e. e ≡ Refusal.Range) }
        ensures same { OnErr result (out.new ≡ out.old) }
    {
        self.adapter.peek(addr, out)
    }

    /// Whether the interrupt line is asserted.
    pub fn line(&self) -> bool
        ensures { IsTrue result ↔ IsAsserted self.now.present.latches }
    {
        self.adapter.line()
    }

    /// Whether the link is up.
    pub fn link(&self) -> bool
        ensures { result ≡ self.now.present.link }
    {
        self.adapter.link()
    }

    /// How many frames lie in the FIFO.
    pub fn frames(&self) -> usize
        ensures { result ≡ length self.now.present.fifo.frames }
    {
        self.adapter.frames()
    }

    /// How many stored octets have room in the FIFO.
    pub fn room(&self) -> usize
        ensures { octets_in self.now.present.fifo + result ≡ 49_152 }
    {
        self.adapter.room()
    }

    /// The first frame of the FIFO, as it lies there; none where no frame waits.
    pub fn first_frame(&self) -> Option<StoredFrame<'_>>
        ensures none { IsNone result ↔ (length self.now.present.fifo.frames ≡ 0) }
        ensures lies { IfSome result (LiesSo (first self.now.present.fifo)) }
    {
        self.adapter.first_frame()
    }

    /// The newest frame of the FIFO, as it lies there; none where no frame waits.
    pub fn last_frame(&self) -> Option<StoredFrame<'_>>
        ensures none { IsNone result ↔ (length self.now.present.fifo.frames ≡ 0) }
        ensures lies { IfSome result (LiesSo (last self.now.present.fifo)) }
    {
        self.adapter.last_frame()
    }

    /// How many frames were sent.
    pub fn wire_len(&self) -> usize
        ensures { result ≡ length self.now.present.wire }
    {
        self.adapter.wire_len()
    }

    /// How many frames were sent in the oldest state that steps back lead to. The cost is that of a look into each record.
    pub fn sent_before(&self) -> usize
        ensures { result ≡ sent_before self.now }
    {
        let mut sent = self.wire_len();
        for k in 0..self.can_go_back() {
            match self.record(k) {
                Some(past) => sent = past.sent_before(sent),
                None => unreachable!(),
            }
        }
        sent
    }

    /// Lets go of the octets of frames that were sent and that no step back takes off the wire: these are empty from
    /// then on, in each state that steps back lead to, and are still counted. Gives how many frames these are.
    pub fn let_frames_go(&mut self) -> usize
        ensures count { result ≡ sent_before self.old }
        ensures view { self.new ≡ view_without result self.old }
    {
        let count = self.sent_before();
        self.adapter.let_frames_go(count);
        count
    }

    /// The octets of a frame that was sent, the first one at 0; none where so many were not sent.
    pub fn wire_frame(&self, index: usize) -> Option<&[u8]>
        ensures { option_map (λ frame. frame.now) result ≡ slice_get self.now.present.wire index }
    {
        self.adapter.wire_frame(index)
    }

    /// The octets that are gathered for the next frame to be sent.
    pub fn gathered(&self) -> &[u8]
        ensures { result.now ≡ self.now.present.gathered }
    {
        self.adapter.gathered()
    }

    /// The address of the first octet of the guest's memory.
    pub fn memory_base(&self) -> u64
        ensures { result ≡ self.now.present.base }
    {
        self.adapter.memory_base()
    }

    /// The address behind the last octet of the guest's memory. In each state memory begins and ends where it does now.
    pub fn memory_end(&self) -> u64
        ensures end { result ≡ length self.now.present.memory }
        ensures states { HaveMemoryOf self.now.present.base result self.now }
    {
        self.adapter.memory_end()
    }

    /// How many octets the guest's memory has: as many in each state.
    pub fn memory_size(&self) -> u64
        ensures size { self.now.present.base + result ≡ length self.now.present.memory }
        ensures states { HaveMemoryOf self.now.present.base (self.now.present.base + result) self.now }
    {
        self.adapter.memory_size()
    }
}

/// Whether a journal can have this budget.
pub fn is_budget(budget: u64) -> bool
    ensures { IsTrue result ↔ IsBudget budget }
{
    LEAST_BUDGET <= budget && budget <= MOST_BUDGET
}
