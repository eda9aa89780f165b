//! How the octets that are gathered for the next frame change.
ghost use Rattle.std.specs.Prelude.{◌≡◌, ◌<◌, ◌≤◌, ◌-◌, IfOk, length};
ghost use Rattle.em_recording.specs.Gathered.{IsGatheredStep, LeadsGathered};
ghost use Rattle.em_recording.specs.Sending.{IsSending};

use crate::copied::copied;
use crate::recorded::GatheredStep;
use crate::sending::Sending;
use em_journal::Machine;
use std::alloc::{AllocError, Global};

/// How an event changed the gathered octets, if it did. It is the one before which so many steps back lead; `after` is
/// the transmit side after it.
pub(crate) fn gathered_of(
    alloc: Global,
    machine: &Machine,
    back: usize,
    after: Sending,
) -> Result<Option<GatheredStep>, AllocError>
    requires some { 0 < back }
    requires there { back ≤ length machine.now.past }
    requires after { IsSending machine.now (back - 1) after }
    ensures ok { IfOk result (IsGatheredStep machine.now back) }
{
    let mut before = Sending {
        sent: after.sent,
        gathered: copied(alloc, after.gathered.as_slice())?,
    };
    before.go_back(machine, back - 1)?;
    step_between(alloc, before.gathered, after.gathered)
}

/// The step from the octets before to those after: where they grew, what came behind; else all of them.
fn step_between(
    alloc: Global,
    before: Vec<u8>,
    after: Vec<u8>,
) -> Result<Option<GatheredStep>, AllocError>
    ensures ok { IfOk result (λ step. LeadsGathered step before.items after.items) }
{
    match after.as_slice().strip_prefix(before.as_slice()) {
        Some(behind) if behind.is_empty() => Ok(None),
        Some(behind) => Ok(Some(GatheredStep {
            kept: before.len(),
            before: Vec::new(alloc),
            after: copied(alloc, behind)?,
        })),
        None => Ok(Some(GatheredStep {
            kept: 0,
            before,
            after,
        })),
    }
}
