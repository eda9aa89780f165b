//! The records of a journal, the newest first, the octets that were saved for them, and what they cost together.
ghost use Rattle.std.specs.Prelude.{◌≡◌, ◌+◌, ◌-◌, ◌/◌, ◌≤◌, ◌<◌, [], ◌∷◌, length, take, sum, IfOk};
ghost use Rattle.circular_buffer.specs.Buffer.{buffer};
ghost use Rattle.em_step.specs.Cost.{cost_by, least_cost, most_cost};
ghost use Rattle.em_journal.specs.Budget.{IsBudget};
ghost use Rattle.em_journal.specs.Records.{costs_by, places_in, undos_of, AreSaved, HasRoom};
ghost use Rattle.em_journal.specs.View.{reach};

use circular_buffer::HeapCircularBuffer;
use em_mem::OldOctets;
use em_step::{Adapter, LEAST_COST, Record};
use std::alloc::{AllocError, Global};

/// The most octets that one event saves: a receive step's, of a piece of 16,384 octets, 8 of a descriptor and 4 of RDH.
/// There is room for so many beside those of a full journal, since an event saves them before the oldest records go.
const MOST_SAVED: usize = 16_396;

/// How many octets the ring of octets has at first, where the budget holds more: those of two full packet buffers, and
/// of one event.
const FIRST_ROOM: usize = 131_072;

/// The greatest budget whose ring of octets is short at first. An event waits while a ring of the whole size takes the
/// place of a short one: about 0.7 ms for each MiB.
const MOST_GROWN: u64 = 1_048_576;

/// How many records a budget holds at most: as many as it has of the least cost.
pub(crate) fn most_records(budget: u64) -> usize
    ensures { result ≡ budget / least_cost }
{
    (budget / u64::from(LEAST_COST)) as usize
}

/// The ring of octets of a journal without records, and memory that waits for one of the whole size where it is short.
/// With a great budget it has its whole size at once.
pub(crate) fn first_octets(
    alloc: Global,
    budget: u64,
) -> Result<(OldOctets, Option<Vec<u8>>), AllocError>
    requires { IsBudget budget }
    ensures { IfOk result (λ made. AreSaved [] made.0 made.1 budget 0) }
{
    let room = budget as usize + MOST_SAVED;
    if budget > MOST_GROWN {
        let octets = OldOctets::with_room(alloc, room)?;
        return Ok((octets, None));
    }
    let octets = OldOctets::with_room(alloc, FIRST_ROOM.min(room))?;
    let waits = Vec::with_capacity(alloc, room)?;
    Ok((octets, Some(waits)))
}

/// The records, the octets that were saved for them, and what they cost.
#[derive(Drop)]
pub(crate) struct Records {
    // the newest first
    pub(crate) ring: HeapCircularBuffer<Record>,
    // a ring with a place for each record that the budget holds, while `ring` has half of them
    pub(crate) larger: Option<HeapCircularBuffer<Record>>,
    // those of the newest record first
    pub(crate) octets: OldOctets,
    // memory for a ring of octets of its whole size, while there is a shorter one
    pub(crate) waits: Option<Vec<u8>>,
    // what they cost together
    pub(crate) used: u64,
}

impl Records {
    /// Sees that the octets of the next event go over none that records need: a short ring of octets grows before they
    /// would go round its beginning. It takes no memory, since that waits. So a machine whose events save few octets
    /// uses little of it.
    #[inline(always)]
    pub(crate) fn make_ready(&mut self, budget: u64)
        requires allowed { IsBudget budget }
        requires saved { AreSaved self.old.ring.items self.old.octets self.old.waits budget self.old.used }
        ensures saved { AreSaved self.new.ring.items self.new.octets self.new.waits budget self.new.used }
        ensures room { HasRoom self.new.octets self.new.waits MOST_SAVED }
        ensures ring { self.new.ring ≡ self.old.ring }
        ensures larger { self.new.larger ≡ self.old.larger }
        ensures undos { undos_of self.new.ring.items self.new.octets ≡ undos_of self.old.ring.items self.old.octets }
        ensures used { self.new.used ≡ self.old.used }
    {
        if self.octets.place() < MOST_SAVED {
            self.grow(budget);
        }
    }

    /// Puts a ring of octets of the whole size in the place of a short one.
    #[inline(never)]
    fn grow(&mut self, budget: u64)
        requires allowed { IsBudget budget }
        requires saved { AreSaved self.old.ring.items self.old.octets self.old.waits budget self.old.used }
        ensures saved { AreSaved self.new.ring.items self.new.octets self.new.waits budget self.new.used }
        ensures room { HasRoom self.new.octets self.new.waits MOST_SAVED }
        ensures ring { self.new.ring ≡ self.old.ring }
        ensures larger { self.new.larger ≡ self.old.larger }
        ensures undos { undos_of self.new.ring.items self.new.octets ≡ undos_of self.old.ring.items self.old.octets }
        ensures used { self.new.used ≡ self.old.used }
    {
        if let Some(waits) = self.waits.take() {
            let mut longer = waits;
            let Ok(()) = longer.resize(budget as usize + MOST_SAVED, 0) else {
                unreachable!();
            };
            self.octets.move_to(longer);
        }
    }

    /// Keeps the record of an event that was performed: the oldest go that the budget no longer holds, and
    /// it comes first. The adapter has the memory of those for later records.
    #[inline(always)]
    pub(crate) fn keep(&mut self, adapter: &mut Adapter, budget: u64, cost: u32, newest: Record)
        requires cost { cost ≡ cost_by newest }
        requires least { least_cost ≤ cost }
        requires most { cost ≤ most_cost }
        requires counted { self.old.used ≡ sum (costs_by self.old.ring.items) }
        requires allowed { IsBudget budget }
        requires places { places_in self.old.ring.capacity self.old.larger ≡ budget / least_cost }
        ensures items { self.new.ring.items
            ≡ take (reach budget (cost_by newest ∷ costs_by self.old.ring.items)) (newest ∷ self.old.ring.items) }
        ensures octets { self.new.octets ≡ self.old.octets }
        ensures waits { self.new.waits ≡ self.old.waits }
        ensures places { places_in self.new.ring.capacity self.new.larger
            ≡ places_in self.old.ring.capacity self.old.larger }
        ensures counted { self.new.used ≡ sum (costs_by self.new.ring.items) }
        ensures held { self.new.used ≤ budget }
        // a performed event can always be taken back
        ensures some { 0 < length self.new.ring.items }
        ensures same { adapter.new ≡ adapter.old }
    {
        let cost = u64::from(cost);
        // The oldest go first, since a full ring would lose one whose cost is not counted.
        let kept = drop_oldest(adapter, &mut self.ring, self.used, budget - cost);
        put_newest(&mut self.ring, &mut self.larger, newest);
        self.used = kept + cost;
    }
}

/// Drops the oldest records until the others cost no more than the room, and gives what those cost.
#[inline(always)]
fn drop_oldest(
    adapter: &mut Adapter,
    records: &mut HeapCircularBuffer<Record>,
    used: u64,
    room: u64,
) -> u64
    requires { used ≡ sum (costs_by records.old.items) }
    ensures items { records.new
        ≡ buffer (take (reach room (costs_by records.old.items)) records.old.items) records.old.capacity }
    ensures used { result ≡ sum (costs_by records.new.items) }
    ensures within { result ≤ room }
    ensures same { adapter.new ≡ adapter.old }
{
    let mut used = used;
    while used > room {
        used -= drop_one(adapter, records);
    }
    used
}

/// Puts a record first, where there is a place for it, so that none is lost.
#[inline(always)]
fn put_newest(
    records: &mut HeapCircularBuffer<Record>,
    larger: &mut Option<HeapCircularBuffer<Record>>,
    newest: Record,
)
    requires { length records.old.items < places_in records.old.capacity larger.old }
    ensures items { records.new.items ≡ newest ∷ records.old.items }
    ensures places { places_in records.new.capacity larger.new ≡ places_in records.old.capacity larger.old }
{
    if let Err(newest) = records.try_push_front(newest) {
        put_in_larger(records, larger, newest);
    }
}

/// Goes over to the larger ring, and puts a record first there.
#[inline(never)]
fn put_in_larger(
    records: &mut HeapCircularBuffer<Record>,
    larger: &mut Option<HeapCircularBuffer<Record>>,
    newest: Record,
)
    requires full { records.old.capacity ≤ length records.old.items }
    requires place { length records.old.items < places_in records.old.capacity larger.old }
    ensures items { records.new.items ≡ newest ∷ records.old.items }
    ensures places { places_in records.new.capacity larger.new ≡ places_in records.old.capacity larger.old }
{
    let Some(mut all) = larger.take() else {
        unreachable!();
    };
    move_records(records, &mut all);
    let Ok(()) = all.try_push_front(newest) else {
        unreachable!();
    };
    *records = all;
}

/// Moves the records to another ring, which has places for them. What it held goes: nothing.
fn move_records(records: &mut HeapCircularBuffer<Record>, ring: &mut HeapCircularBuffer<Record>)
    requires { length records.old.items ≤ ring.old.capacity }
    ensures { ring.new ≡ buffer records.old.items ring.old.capacity }
{
    ring.clear();
    while let Some(record) = records.pop_front() {
        let Ok(()) = ring.try_push_back(record) else {
            unreachable!();
        };
    }
}

/// Drops the oldest record, and gives what it cost.
#[inline(never)]
fn drop_one(adapter: &mut Adapter, records: &mut HeapCircularBuffer<Record>) -> u64
    requires { 0 < length records.old.items }
    ensures items { records.new ≡ buffer (take (length records.old.items - 1) records.old.items) records.old.capacity }
    ensures cost { sum (costs_by records.new.items) + result ≡ sum (costs_by records.old.items) }
    ensures same { adapter.new ≡ adapter.old }
{
    let Some(oldest) = records.pop_back() else {
        unreachable!();
    };
    u64::from(adapter.let_go(oldest))
}
