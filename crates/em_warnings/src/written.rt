//! Whether the driver wrote a descriptor since the adapter set DD in it, by what the journal holds.
ghost use Rattle.std.specs.Prelude.{◌≡◌, Some};
ghost use Rattle.em_warnings.specs.Written.{Watches, is_rewritten, status_of};

use crate::flaw::STATUS;
use em_journal::Machine;
use em_regs::DESCRIPTOR_OCTETS;
use em_watch::{MemoryRange, Sight, Watch, change_within, seen};

/// How many of the newest events are looked at.
const LAST_EVENTS: usize = 64;

/// Whether the newest change of the descriptor at an address, in the last 64 events, left its status as it is.
pub(crate) fn is_rewritten(machine: &Machine, at: u64) -> bool
    ensures { result ≡ is_rewritten machine.now at }
{
    let watch = watched(at);
    match change_within(machine, watch, LAST_EVENTS) {
        Some(change) => status_of(change.before) == status_of(seen(machine, watch)),
        None => false,
    }
}

/// What watches the descriptor at an address.
fn watched(at: u64) -> Watch
    ensures { Watches at result }
{
    match MemoryRange::new(at, DESCRIPTOR_OCTETS) {
        Some(range) => Watch::Octets(range),
        None => unreachable!(),
    }
}

/// The status in what is seen of a descriptor; 0 where it leaves memory.
fn status_of(seen: Sight) -> u8
    ensures { result ≡ status_of (Some seen) }
{
    match seen {
        Sight::Octets(octets) => octets[STATUS],
        _ => 0,
    }
}
