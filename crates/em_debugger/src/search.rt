//! The newest change of a watched thing, over all events that stand at the place of a tape.
ghost use Rattle.std.specs.Prelude.{◌≡◌, ◌<◌, ℕ, IfSome, IfNone};
ghost use Rattle.em_journal.specs.declared.settings.Settings.{Settings as Given};
ghost use Rattle.em_tape.specs.declared.tape.Tape.{Tape as Lines};
ghost use Rattle.em_debugger.specs.Deeper.{IsAgain, IsSeen};
ghost use Rattle.em_debugger.specs.Search.{IsFoundIn, HoldsNone, Seeks, next_unseen};

use crate::deeper::{Unseen, deeper, see};
use em_journal::Settings;
use em_tape::Tape;
use em_trail::Note;
use em_watch::{Difference, Watch, change_before, seen_back};
use std::alloc::Global;

/// A change, the event that made it, and what that was.
#[derive(Clone, Copy)]
pub(crate) struct Found {
    pub(crate) event: u64,
    pub(crate) note: Note,
    pub(crate) difference: Difference,
}

/// What a search gave.
#[derive(Clone, Copy)]
pub(crate) enum Sought {
    Found(Found),
    /// No event changed it.
    Never,
    /// An event was not seen.
    Unreached(Unseen),
}

/// The newest change of a watched thing that is older than so many of the events that stand at the place.
pub(crate) fn search(
    alloc: Global,
    settings: Settings,
    tape: &Tape,
    watch: Watch,
    back: usize,
) -> Sought
    ensures { Seeks settings tape.now watch tape.now back result }
{
    if let Some(found) = in_journal(tape, watch, back) {
        return Sought::Found(found);
    }
    let next = next_unseen(tape, back);
    if next == 0 {
        return Sought::Never;
    }
    match deeper(alloc, settings, tape, next) {
        Ok(mut deep) => in_deeper(&mut deep, watch),
        Err(why) => Sought::Unreached(why),
    }
}

/// The same on a second tape, from its place on, which goes from window to window.
fn in_deeper(deep: &mut Tape, watch: Watch) -> Sought
    requires { (event : ℕ) × IsSeen event deep.old }
    ensures { (settings : Given) (tape : Lines) → IsAgain settings tape deep.old
        → Seeks settings tape watch deep.old 0 result }
{
    loop {
        if let Some(found) = in_journal(deep, watch, 0) {
            return Sought::Found(found);
        }
        let next = next_unseen(deep, 0);
        if next == 0 {
            return Sought::Never;
        }
        if let Err(why) = see(deep, next) {
            return Sought::Unreached(why);
        }
    }
}

/// The number of the newest event that a journal does not hold, from so many steps back on; 0 where it holds all.
pub(crate) fn next_unseen(tape: &Tape, back: usize) -> u64
    ensures { result ≡ next_unseen tape.now back }
{
    tape.event_back(tape.machine().can_go_back().max(back))
}

/// The newest change from so many steps back on, as far as the journal reaches.
fn in_journal(tape: &Tape, watch: Watch, back: usize) -> Option<Found>
    ensures some { IfSome result (IsFoundIn tape.now watch back) }
    ensures none { IfNone result (HoldsNone tape.now watch back) }
{
    let machine = tape.machine();
    if back > machine.can_go_back() {
        return None;
    }
    let change = change_before(machine, watch, back)?;
    let steps = change.back - 1;
    match (seen_back(machine, watch, steps), tape.note_back(steps)) {
        (Some(after), Some(note)) => Some(Found {
            event: tape.event_back(steps),
            note,
            difference: Difference {
                before: change.before,
                after,
            },
        }),
        _ => unreachable!(),
    }
}
