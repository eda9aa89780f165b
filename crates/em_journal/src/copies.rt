//! The records of a journal once more, in memory of their own.
ghost use Rattle.std.specs.Prelude.{◌≡◌, ℕ, IfOk};
ghost use Rattle.em_journal.specs.Copies.{AreCopies, room_of};
ghost use Rattle.em_journal.specs.Records.{places_in};

use crate::records::Records;
use circular_buffer::HeapCircularBuffer;
use em_step::Record;
use std::alloc::{AllocError, Global};

impl Records {
    /// Records that take the same back, with the octets that were saved for them, and room for as many more.
    pub(crate) fn copy(&self) -> Result<Records, AllocError>
        ensures records { IfOk result (λ copy. AreCopies self.now.ring.items copy.ring.items) }
        ensures places { IfOk result (λ copy. places_in copy.ring.capacity copy.larger
            ≡ places_in self.now.ring.capacity self.now.larger) }
        ensures octets { IfOk result (λ copy. copy.octets ≡ self.now.octets) }
        ensures waits { IfOk result (λ copy. room_of copy.waits ≡ room_of self.now.waits) }
        ensures used { IfOk result (λ copy. copy.used ≡ self.now.used) }
    {
        let alloc = *self.ring.allocator();
        let ring = copy_ring(alloc, &self.ring)?;
        let larger = copy_larger(alloc, &self.larger)?;
        let octets = self.octets.copy()?;
        let waits = copy_waits(alloc, &self.waits)?;
        Ok(Records {
            ring,
            larger,
            octets,
            waits,
            used: self.used,
        })
    }
}

/// Records that take the same back, in a ring with as many places.
fn copy_ring(
    alloc: Global,
    ring: &HeapCircularBuffer<Record>,
) -> Result<HeapCircularBuffer<Record>, AllocError>
    ensures records { IfOk result (λ copy. AreCopies ring.now.items copy.items) }
    ensures places { IfOk result (λ copy. copy.capacity ≡ ring.now.capacity) }
{
    let mut copy = HeapCircularBuffer::with_capacity(alloc, ring.capacity())?;
    for k in 0..ring.len() {
        let Some(record) = ring.get(k) else {
            unreachable!();
        };
        let copied = record.copy(alloc)?;
        let Ok(()) = copy.try_push_back(copied) else {
            unreachable!();
        };
    }
    Ok(copy)
}

/// A ring with as many places, where one waits: it holds no records yet.
fn copy_larger(
    alloc: Global,
    larger: &Option<HeapCircularBuffer<Record>>,
) -> Result<Option<HeapCircularBuffer<Record>>, AllocError>
    ensures { IfOk result (λ copy. (capacity : ℕ) → places_in capacity copy ≡ places_in capacity larger.now) }
{
    match larger {
        Some(larger) => {
            let copy = HeapCircularBuffer::with_capacity(alloc, larger.capacity())?;
            Ok(Some(copy))
        }
        None => Ok(None),
    }
}

/// As much memory, where any waits.
fn copy_waits(alloc: Global, waits: &Option<Vec<u8>>) -> Result<Option<Vec<u8>>, AllocError>
    ensures { IfOk result (λ copy. room_of copy ≡ room_of waits.now) }
{
    match waits {
        Some(waits) => {
            let copy = Vec::with_capacity(alloc, waits.capacity())?;
            Ok(Some(copy))
        }
        None => Ok(None),
    }
}
