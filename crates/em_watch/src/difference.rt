//! What one event did to a watched thing.
ghost use Rattle.std.specs.Prelude.{◌≡◌, ◌-◌, ◌<◌, ◌≤◌, IfSome, IfNone, length};
ghost use Rattle.em_watch.specs.Difference.{IsDifference, LeavesAsItIs};
ghost use Rattle.em_watch.specs.Traced.{IsTraced};

use crate::search::{differ, follow, step_back};
use crate::traced::Traced;
use crate::watch::{Sight, Watch};
use em_journal::Machine;

/// What an event did to a watched thing: what was seen before it, and after it.
#[derive(Clone, Copy, PartialEq, Eq, Debug)]
pub struct Difference {
    pub before: Sight,
    pub after: Sight,
}

/// What an event did to a watched thing; none where it left it as it was. So many steps back lead to just before the
/// event: the newest is 1.
pub fn difference_of(machine: &Machine, watch: Watch, back: usize) -> Option<Difference>
    requires some { 0 < back }
    requires there { back ≤ length machine.now.past }
    ensures difference { IfSome result (IsDifference watch machine.now back) }
    ensures none { IfNone result (LeavesAsItIs watch machine.now back) }
{
    let (before, after) = around(machine, watch, back);
    let (before, after) = (before.sight(), after.sight());
    if differ(before, after) {
        Some(Difference { before, after })
    } else {
        None
    }
}

/// A watched thing just before an event and just after it.
pub(crate) fn around(machine: &Machine, watch: Watch, back: usize) -> (Traced, Traced)
    requires some { 0 < back }
    requires there { back ≤ length machine.now.past }
    ensures before { IsTraced watch machine.now back result.0 }
    ensures after { IsTraced watch machine.now (back - 1) result.1 }
{
    let now = Traced::of(machine, watch);
    let last = back - 1;
    let after = follow(machine, 0, last, now);
    (step_back(machine, last, after), after)
}
