//! Which event changed what is watched.
ghost use Rattle.std.specs.Prelude.{◌≡◌, ◌≢◌, true, false, ◌+◌, ◌<◌, ◌≤◌, IfSome, IfNone, length, min, slice_get};
ghost use Rattle.em_watch.specs.Change.{IsNextChange, NeverDiffers, StaysTo};
ghost use Rattle.em_watch.specs.Traced.{IsTraceable, LeadsBack, ChangesNext, StaysAsItIs};
ghost use Rattle.em_watch.specs.Watching.{sight, sights};

use crate::change::Change;
use crate::traced::Traced;
use crate::watch::{Sight, Watch};
use em_journal::Machine;
use std::marker::Model;

/// What a watch sees of a machine now.
pub fn seen(machine: &Machine, watch: Watch) -> Sight
    ensures { result ≡ sight watch machine.now.present }
{
    Traced::of(machine, watch).sight()
}

/// What a watch saw so many steps back; none where steps back do not lead so far.
pub fn seen_back(machine: &Machine, watch: Watch, back: usize) -> Option<Sight>
    ensures { result ≡ slice_get (sights watch machine.now) back }
{
    if back > machine.can_go_back() {
        return None;
    }
    let now = Traced::of(machine, watch);
    Some(follow(machine, 0, back, now).sight())
}

/// The newest change of a watched thing; none where no step back that the journal holds shows another.
///
/// A read that cleared it is a change like any other. Between a change and its change back the thing was another,
/// so the change back is the newest. A refused event leaves no record, and is never named.
pub fn last_change(machine: &Machine, watch: Watch) -> Option<Change>
    ensures change { IfSome result (IsNextChange watch machine.now 0) }
    ensures none { IfNone result (NeverDiffers watch machine.now 0) }
{
    changes(machine, watch).next()
}

/// The newest change of a watched thing that is older than so many steps back; none where no step back beyond
/// shows another thing than is seen there.
pub fn change_before(machine: &Machine, watch: Watch, back: usize) -> Option<Change>
    ensures change { IfSome result (IsNextChange watch machine.now back) }
    ensures none { IfNone result (NeverDiffers watch machine.now back) }
{
    if back > machine.can_go_back() {
        return None;
    }
    let mut search = changes(machine, watch);
    search.skip_to(back);
    search.next()
}

/// The newest change of a watched thing in the last `most` events; none where none of them shows another.
pub fn change_within(machine: &Machine, watch: Watch, most: usize) -> Option<Change>
    ensures change { IfSome result (IsNextChange watch machine.now 0) }
    ensures within { IfSome result (λ change. change.back ≤ most) }
    ensures none { IfNone result (StaysTo watch machine.now 0 (min most (length machine.now.past))) }
{
    let to = most.min(machine.can_go_back());
    let now = Traced::of(machine, watch);
    let (back, traced) = next_other(machine, 0, to, now)?;
    Some(Change {
        back,
        before: traced.sight(),
    })
}

/// All changes of a watched thing, the newest first.
pub fn changes(machine: &Machine, watch: Watch) -> ChangeIter<'_>
    ensures view { result.view ≡ machine.now }
    ensures watch { result.watch ≡ watch }
    ensures back { result.back ≡ 0 }
{
    ChangeIter {
        machine,
        watch,
        traced: Traced::of(machine, watch),
        back: 0,
    }
}

/// The changes of a watched thing from a state of the journal on, the newest first.
#[derive(Drop)]
pub struct ChangeIter<'a> {
    machine: &'a Machine,
    watch: Watch,
    // the watched thing so many steps back
    traced: Traced,
    back: usize,
}

impl<'a> Model for ChangeIter<'a> {
    ghost use Rattle.em_watch.specs.Search.{Search, search_code};
    ghost use Rattle.em_watch.specs.Traced.{IsTraced};
    ghost use Rattle.em_watch.specs.contracts.watch.Watch as watched;

    ghost Value = { Search };

    ghost coded = { search_code watched.the_row.coded };

    ghost view = { λ c. record { view = c.machine.now; watch = c.watch; back = c.back } };

    ghost invariant = { λ c. IsTraced c.watch c.machine.now c.back c.traced };
}

impl<'a> ChangeIter<'a> {
    /// Goes to the state so many steps back.
    fn skip_to(&mut self, back: usize)
        requires older { self.old.back ≤ back }
        requires there { back ≤ length self.old.view.past }
        ensures { self.new ≡ record self.old { back = back } }
    {
        self.traced = follow(self.machine, self.back, back, self.traced);
        self.back = back;
    }
}

impl<'a> Iterator for ChangeIter<'a> {
    type Item = Change;

    ghost use Rattle.em_watch.specs.Search.{GivesNext, changes_left};

    ghost next_gives = { GivesNext };

    ghost remaining = { changes_left };

    /// The next older change.
    fn next(&mut self) -> Option<Change> {
        let to = self.machine.can_go_back();
        let (back, traced) = next_other(self.machine, self.back, to, self.traced)?;
        self.traced = traced;
        self.back = back;
        Some(Change {
            back,
            before: traced.sight(),
        })
    }
}

/// Follows a watched thing from so many steps back to more.
pub(crate) fn follow(machine: &Machine, from: usize, to: usize, traced: Traced) -> Traced
    requires older { from ≤ to }
    requires there { to ≤ length machine.now.past }
    requires register { IsTraceable traced }
    ensures { LeadsBack machine.now from traced to result }
{
    let mut before = traced;
    for k in from..to {
        before = step_back(machine, k, before);
    }
    before
}

/// Follows a watched thing from so many steps back to where it is seen as another, at most to so many: how many steps back
/// that is, and the thing there.
fn next_other(machine: &Machine, from: usize, to: usize, traced: Traced) -> Option<(usize, Traced)>
    requires there { to ≤ length machine.now.past }
    requires register { IsTraceable traced }
    ensures there { IfSome result (λ found. LeadsBack machine.now from traced found.0 found.1) }
    ensures change { IfSome result (λ found. ChangesNext machine.now from traced found.0 found.1) }
    ensures within { IfSome result (λ found. found.0 ≤ to) }
    ensures none { IfNone result (StaysAsItIs machine.now from to traced) }
{
    let now = traced.sight();
    let mut before = traced;
    for k in from..to {
        before = step_back(machine, k, before);
        if differ(before.sight(), now) {
            return Some((k + 1, before));
        }
    }
    None
}

/// A watched thing, traced so many steps back, as it was one step before.
#[inline(always)]
pub(crate) fn step_back(machine: &Machine, k: usize, traced: Traced) -> Traced
    requires there { k < length machine.now.past }
    requires register { IsTraceable traced }
    ensures back { LeadsBack machine.now k traced (k + 1) result }
    ensures register { IsTraceable result }
{
    match machine.record(k) {
        Some(past) => traced.before(&past),
        None => unreachable!(),
    }
}

/// Whether two sights are not the same.
#[inline(always)]
pub(crate) fn differ(one: Sight, other: Sight) -> bool
    ensures different { result ≡ true → one ≢ other }
    ensures same { result ≡ false → one ≡ other }
{
    one != other
}
