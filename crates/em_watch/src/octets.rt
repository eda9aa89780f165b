//! The octets of guest memory that one event changed.
ghost use Rattle.std.specs.Prelude.{◌≡◌, ◌≢◌, ◌+◌, ◌-◌, ◌^◌, ◌<◌, ◌≤◌, ℕ, IfSome, IfNone, length, slice_index};
ghost use Rattle.em_watch.specs.MemoryChange.{HasRange, IsMemoryChange, LeavesOctets, LeavesRest, ShowsOctets};

use crate::difference::around;
use crate::range::{MOST_WATCHED, MemoryRange};
use crate::watch::Watch;
use em_journal::Machine;
use std::marker::Model;

/// Octets side by side, of which an event changed the first and the last.
#[derive(Clone, Copy, PartialEq, Eq, Debug)]
pub struct MemoryChange {
    /// Where they lie.
    pub range: MemoryRange,
    /// The octets before the event, and zeros behind them.
    pub before: [u8; MOST_WATCHED],
    /// The octets after it, and zeros behind them.
    pub after: [u8; MOST_WATCHED],
}

/// The octets of guest memory that an event changed, from an address on.
#[derive(Drop)]
pub struct MemoryChanges<'a> {
    machine: &'a Machine,
    back: usize,
    addr: u64,
}

impl<'a> Model for MemoryChanges<'a> {
    ghost use Rattle.em_watch.specs.RegisterSearch.{IsOfAnEvent};
    ghost use Rattle.em_watch.specs.MemorySearch.{MemorySearch, memory_search_code};

    ghost Value = { MemorySearch };

    ghost coded = { memory_search_code };

    ghost view = { λ c. record { view = c.machine.now; back = c.back; addr = c.addr } };

    ghost invariant = { λ c. IsOfAnEvent c.machine.now c.back };
}

impl<'a> MemoryChanges<'a> {
    /// All that it changed.
    pub(crate) fn of(machine: &'a Machine, back: usize) -> MemoryChanges<'a>
        requires some { 0 < back }
        requires there { back ≤ length machine.now.past }
        ensures { result ≡ record { view = machine.now; back = back; addr = 0 } }
    {
        MemoryChanges {
            machine,
            back,
            addr: 0,
        }
    }
}

impl<'a> Iterator for MemoryChanges<'a> {
    type Item = MemoryChange;

    ghost use Rattle.em_watch.specs.MemorySearch.{GivesOctets, octets_left};

    ghost next_gives = { GivesOctets };

    ghost remaining = { octets_left };

    /// The next octets, by address.
    fn next(&mut self) -> Option<MemoryChange> {
        let change = next_octets(self.machine, self.back, self.addr)?;
        self.addr = change.range.addr() + change.range.len() as u64;
        Some(change)
    }
}

/// The first octets from an address on that an event changed.
fn next_octets(machine: &Machine, back: usize, from: u64) -> Option<MemoryChange>
    requires some { 0 < back }
    requires there { back ≤ length machine.now.past }
    ensures change { IfSome result (IsMemoryChange machine.now back) }
    ensures from { IfSome result (λ change. from ≤ change.range.addr) }
    ensures first { IfSome result (λ change. LeavesOctets machine.now back from change.range.addr) }
    ensures held { IfSome result (λ change. HasRange machine.now change.range) }
    ensures fits { IfSome result (λ change. change.range.addr + change.range.len < 2 ^ 64) }
    ensures none { IfNone result (LeavesRest machine.now back from) }
{
    let mut next = from;
    while let Some(window) = next_window(machine, back, next) {
        if let Some(change) = changed_in(machine, back, window) {
            return Some(change);
        }
        next = window.addr() + window.len() as u64;
    }
    None
}

/// The octets from the next place on that the record of an event has, as many as are watched at once; none where it
/// has none.
fn next_window(machine: &Machine, back: usize, from: u64) -> Option<MemoryRange>
    requires some { 0 < back }
    requires there { back ≤ length machine.now.past }
    ensures from { IfSome result (λ window. from ≤ window.addr) }
    ensures held { IfSome result (HasRange machine.now) }
    ensures fits { IfSome result (λ window. window.addr + window.len < 2 ^ 64) }
    ensures left { IfSome result (λ window. LeavesOctets machine.now back from window.addr) }
    ensures none { IfNone result (LeavesRest machine.now back from) }
{
    let at = next_place(machine, back, from)?;
    let end = machine.memory_end();
    if at < end {
        Some(MemoryRange::within(at, end - at))
    } else {
        None
    }
}

/// The next place from an address on where the record of an event has an octet.
fn next_place(machine: &Machine, back: usize, from: u64) -> Option<u64>
    requires some { 0 < back }
    requires there { back ≤ length machine.now.past }
    ensures from { IfSome result (λ at. from ≤ at) }
    ensures inside { IfSome result (λ at. machine.now.present.base ≤ at) }
    ensures left { IfSome result (LeavesOctets machine.now back from) }
    ensures none { IfNone result (LeavesRest machine.now back from) }
{
    // in each state it lies where it lies now
    let _end = machine.memory_end();
    match machine.record(back - 1) {
        Some(past) => past.next_octet(from),
        None => unreachable!(),
    }
}

/// What an event changed of a range, from the first octet that is not what it was to the last one; none where it left
/// them all.
fn changed_in(machine: &Machine, back: usize, window: MemoryRange) -> Option<MemoryChange>
    requires some { 0 < back }
    requires there { back ≤ length machine.now.past }
    requires held { HasRange machine.now window }
    requires fits { window.addr + window.len < 2 ^ 64 }
    ensures change { IfSome result (IsMemoryChange machine.now back) }
    ensures from { IfSome result (λ change. window.addr ≤ change.range.addr) }
    ensures to { IfSome result (λ change. change.range.addr + change.range.len ≤ window.addr + window.len) }
    ensures first { IfSome result (λ change. LeavesOctets machine.now back window.addr change.range.addr) }
    ensures rest { IfSome result (λ change.
        LeavesOctets machine.now back (change.range.addr + change.range.len) (window.addr + window.len)) }
    ensures none { IfNone result (LeavesOctets machine.now back window.addr (window.addr + window.len)) }
{
    let (before, after) = octets_around(machine, back, window);
    let first = first_other(&before, &after, window.len())?;
    let last = last_other(&before, &after, window.len(), first);
    let range = window.between(first, last);
    let (before, after) = octets_around(machine, back, range);
    Some(MemoryChange {
        range,
        before,
        after,
    })
}

/// The octets of a range just before an event and just after it, with zeros behind them.
fn octets_around(
    machine: &Machine,
    back: usize,
    range: MemoryRange,
) -> ([u8; MOST_WATCHED], [u8; MOST_WATCHED])
    requires some { 0 < back }
    requires there { back ≤ length machine.now.past }
    requires held { HasRange machine.now range }
    ensures before { ShowsOctets machine.now back range result.0 }
    ensures after { ShowsOctets machine.now (back - 1) range result.1 }
{
    let (before, after) = around(machine, Watch::Octets(range), back);
    (before.octets(), after.octets())
}

/// The first of so many octets that is not the same in both.
fn first_other(before: &[u8; MOST_WATCHED], after: &[u8; MOST_WATCHED], len: usize) -> Option<usize>
    requires { len ≤ MOST_WATCHED }
    ensures within { IfSome result (λ i. i < len) }
    ensures other { IfSome result (λ i. slice_index before.now i ≢ slice_index after.now i) }
    ensures first { IfSome result (λ i. (j : ℕ) → j < i → slice_index before.now j ≡ slice_index after.now j) }
    ensures none { IfNone result ((j : ℕ) → j < len → slice_index before.now j ≡ slice_index after.now j) }
{
    for i in 0..len {
        if before[i] != after[i] {
            return Some(i);
        }
    }
    None
}

/// The last of so many octets that is not the same in both, where one is known.
fn last_other(
    before: &[u8; MOST_WATCHED],
    after: &[u8; MOST_WATCHED],
    len: usize,
    known: usize,
) -> usize
    requires size { len ≤ MOST_WATCHED }
    requires within { known < len }
    requires other { slice_index before.now known ≢ slice_index after.now known }
    ensures from { known ≤ result }
    ensures within { result < len }
    ensures other { slice_index before.now result ≢ slice_index after.now result }
    ensures rest { (j : ℕ) → result < j → j < len → slice_index before.now j ≡ slice_index after.now j }
{
    let mut last = known;
    for i in known..len {
        if before[i] != after[i] {
            last = i;
        }
    }
    last
}
