//! What a line did with events.
ghost use Rattle.std.specs.Prelude.{◌≡◌, ℕ, ◌-◌, ◌<◌, ◌≤◌, Option, Some, length, slice_get, vec_len, vec_capacity};
ghost use Rattle.em_line.specs.ParsedLine.{ParsedLine};
ghost use Rattle.em_script.specs.RefusedAt.{RefusedAt};
ghost use Rattle.em_script.specs.Reply.{line_outcome};
ghost use Rattle.em_script.specs.Session.{Session};
ghost use Rattle.em_named.specs.Numbers.{performed_by};
ghost use Rattle.em_script.specs.Did.{did_of};
ghost use Rattle.em_tape.specs.Did.{done_in, IsSeen};
ghost use Rattle.em_tape.specs.Kind.{IsKind};
ghost use Rattle.em_tape.specs.Moves.{has_at, noted, same_did};

use crate::kind::Kind;
use em_line::MOST_BACK;
use em_named::Did;
use em_script::Outcome;

/// What is seen of a session before a line and after it.
#[derive(Clone, Copy)]
pub(crate) struct Seen {
    /// How many records the journal had before the line.
    pub(crate) before: usize,
    /// And how many after it.
    pub(crate) after: usize,
    /// Whether a driver stood there before the line.
    pub(crate) started: bool,
    /// How many events the last call of a driver performed, with those of its plan.
    pub(crate) called: u64,
}

/// What a line of this kind did with events that came out so.
pub(crate) fn did_of(kind: Kind, outcome: Outcome, seen: Seen) -> Did
    requires { seen.called ≤ 0x2_0000_0000 }
    ensures is { (memory : Option RefusedAt) (parsed : ParsedLine) (before : Session) → IsKind kind parsed
        → outcome ≡ line_outcome memory parsed before → IsSeen seen memory parsed before
        → result ≡ did_of memory parsed before }
    ensures few { performed_by result ≤ 0x2_0000_0000 }
{
    match outcome {
        Outcome::Silent => Did::Performed(0),
        Outcome::Bad => Did::Performed(0),
        Outcome::Refused(_) => did_where(kind, false, seen),
        Outcome::Done | Outcome::Answered(_) => did_where(kind, true, seen),
    }
}

/// What a line did that says something, by whether it was done or refused.
fn did_where(kind: Kind, done: bool, seen: Seen) -> Did
    requires { seen.called ≤ 0x2_0000_0000 }
    ensures is { (memory : Option RefusedAt) (parsed : ParsedLine) (before : Session) → IsKind kind parsed
        → done_in (line_outcome memory parsed before) ≡ Some done → IsSeen seen memory parsed before
        → result ≡ did_of memory parsed before }
    ensures few { performed_by result ≤ 0x2_0000_0000 }
{
    match kind {
        Kind::Event => Did::Performed(u64::from(done)),
        Kind::Look => Did::Performed(0),
        Kind::Back => took_back(seen),
        Kind::Start => Did::Performed(seen.called),
        Kind::Call => {
            if seen.started {
                Did::Performed(seen.called)
            } else {
                Did::Performed(0)
            }
        }
        Kind::Plan => Did::Performed(0),
        Kind::Nothing => Did::Performed(0),
    }
}

/// What a line did that takes events back.
fn took_back(seen: Seen) -> Did
    ensures is { (took : ℕ) → took ≡ seen.before - seen.after → took ≤ 65536 → result ≡ Did.TookBack took }
    ensures few { performed_by result ≡ 0 }
{
    Did::TookBack(
        seen.before
            .saturating_sub(seen.after)
            .min(MOST_BACK as usize) as u32,
    )
}

/// Notes what the line behind the first `whole` did. Where it did something else before, no more is known of those
/// behind it.
pub(crate) fn note(all: &mut Vec<Did>, whole: usize, did: Did)
    requires within { whole ≤ length all.old.items }
    requires room { vec_len all.old < vec_capacity all.old }
    ensures { all.new.items ≡ noted whole did all.old.items }
{
    if !is_noted(all.as_slice(), whole, did) {
        all.truncate(whole);
        all.push_reserved(did);
    }
}

/// Whether it was noted that the line behind the first `whole` did this.
pub(crate) fn is_noted(all: &[Did], whole: usize, did: Did) -> bool
    ensures { result ≡ has_at (slice_get all.now whole) did }
{
    match all.get(whole) {
        Some(one) => is_same(*one, did),
        None => false,
    }
}

fn is_same(one: Did, other: Did) -> bool
    ensures { result ≡ same_did one other }
{
    match (one, other) {
        (Did::Performed(count), Did::Performed(events)) => count == events,
        (Did::TookBack(count), Did::TookBack(events)) => count == events,
        (Did::Performed(_), Did::TookBack(_)) => false,
        (Did::TookBack(_), Did::Performed(_)) => false,
    }
}
