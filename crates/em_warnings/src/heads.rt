//! The rules about a ring's head: a tail that goes past it, and a head that is moved.
ghost use Rattle.std.specs.Prelude.{◌≡◌};
ghost use Rattle.em_warnings.specs.Heads as heads;

use crate::before::value_before;
use crate::rings::{control_of, ring_of_head, ring_of_tail};
use crate::warning::Warning;
use em_journal::Machine;
use em_regs::{Reg, Ring};

/// The register is the tail of a ring that is enabled, and went past its head.
pub(crate) fn tail_past_head(machine: &Machine, tail: Reg) -> Option<Warning>
    ensures { result ≡ heads.tail_past_head machine.now tail }
{
    let ring = ring_of_tail(machine, tail)?;
    let was = value_before(machine, tail)?;
    if goes_past(&ring.setup, was) {
        Some(Warning::TailPastHead {
            tail,
            index: ring.setup.tail,
            count: ring.setup.count,
        })
    } else {
        None
    }
}

/// Whether a ring's tail, which was another, went past the head of a ring that is enabled: what waited already and what was
/// given since are as many descriptors as the ring has, or more.
fn goes_past(ring: &Ring, was: u32) -> bool
    ensures { result ≡ heads.goes_past ring.now was }
{
    let (count, head, tail) = (
        u64::from(ring.count),
        u64::from(ring.head),
        u64::from(ring.tail),
    );
    let was = u64::from(was);
    ring.enabled
        && head < count
        && tail < count
        && was < count
        && count <= (was + count - head) % count + (tail + count - was) % count
}

/// The register is the head of a ring that is enabled, and the write moved it.
pub(crate) fn head_while_enabled(machine: &Machine, head: Reg) -> Option<Warning>
    ensures { result ≡ heads.head_while_enabled machine.now head }
{
    let ring = ring_of_head(machine, head)?;
    let was = value_before(machine, head)?;
    if ring.setup.enabled && 0 < ring.setup.count && was != ring.setup.head {
        Some(Warning::HeadWhileEnabled {
            head,
            control: control_of(ring.side),
        })
    } else {
        None
    }
}
