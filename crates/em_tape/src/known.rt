//! What is known of lines, so that they can be done again by themselves, or taken back.
ghost use Rattle.std.specs.Prelude.{◌≡◌, ◌<◌, ◌≤◌, ◌-◌, ◌∷◌, ◌++◌, [], true, false, Some, Option, IfSome, length, take, drop};
ghost use Rattle.std.specs.Prelude.{vec_len, vec_capacity};
ghost use Rattle.em_line.specs.ParsedLine.{ParsedLine};
ghost use Rattle.em_script.specs.RefusedAt.{RefusedAt};
ghost use Rattle.em_script.specs.Reply.{after_line, line_outcome};
ghost use Rattle.em_script.specs.Session.{Session};
ghost use Rattle.em_tape.specs.Did.{done_in};
ghost use Rattle.em_tape.specs.Kind.{IsKind};
ghost use Rattle.em_tape.specs.Known.{Does, events_in};

use crate::did::Seen;
use crate::kind::Kind;
use em_script::Outcome;

/// What is known of a line that was performed.
#[derive(Clone, Copy)]
pub(crate) enum Known {
    /// Nothing.
    Nothing,
    /// One event, which the journal holds beside all that it held before.
    OneEvent,
    /// Something else, or it is not known what.
    Other,
}

/// What a line of this kind did that came out so.
pub(crate) fn known_of(kind: Kind, outcome: Outcome, seen: Seen) -> Known
    ensures { (memory : Option RefusedAt) (parsed : ParsedLine) (before : Session) → IsKind kind parsed
        → outcome ≡ line_outcome memory parsed before → seen.before ≡ length before.machine.past
        → seen.before ≡ length before.machine.costs
        → seen.after ≡ length (after_line memory parsed before).machine.past
        → Does result parsed before (after_line memory parsed before) }
{
    match outcome {
        Outcome::Silent => Known::Nothing,
        Outcome::Bad => Known::Nothing,
        Outcome::Refused(_) => refused(kind),
        Outcome::Done | Outcome::Answered(_) => done(kind, seen),
    }
}

/// What a line did that was refused.
fn refused(kind: Kind) -> Known
    ensures { (memory : Option RefusedAt) (parsed : ParsedLine) (before : Session) → IsKind kind parsed
        → done_in (line_outcome memory parsed before) ≡ Some false
        → Does result parsed before (after_line memory parsed before) }
{
    match kind {
        Kind::Event => Known::Nothing,
        Kind::Look => Known::Nothing,
        Kind::Back => Known::Other,
        Kind::Start => Known::Other,
        Kind::Call => Known::Other,
        Kind::Plan => Known::Other,
        Kind::Nothing => Known::Other,
    }
}

/// What a line did that was done.
fn done(kind: Kind, seen: Seen) -> Known
    ensures { (memory : Option RefusedAt) (parsed : ParsedLine) (before : Session) → IsKind kind parsed
        → done_in (line_outcome memory parsed before) ≡ Some true → seen.before ≡ length before.machine.past
        → seen.before ≡ length before.machine.costs
        → seen.after ≡ length (after_line memory parsed before).machine.past
        → Does result parsed before (after_line memory parsed before) }
{
    match kind {
        Kind::Event => {
            if seen.after > seen.before {
                Known::OneEvent
            } else {
                Known::Other
            }
        }
        Kind::Look => Known::Nothing,
        Kind::Back => Known::Other,
        Kind::Start => Known::Other,
        Kind::Call => Known::Other,
        Kind::Plan => Known::Other,
        Kind::Nothing => Known::Other,
    }
}

/// How many events lines did that did no more than one each; none where one of them did something else.
pub(crate) fn events_of(known: &[Known]) -> Option<usize>
    ensures { result ≡ events_in known.now }
{
    let mut events = 0;
    for one in known {
        match one {
            Known::Nothing => {}
            Known::OneEvent => events += 1,
            Known::Other => return None,
        }
    }
    Some(events)
}

/// Behind which line so many events lie, up to the end of the first `whole` lines, where each of the lines between did
/// no more than one.
pub(crate) fn line_before(known: &[Known], whole: usize, events: usize) -> Option<usize>
    requires { whole ≤ length known.now }
    ensures { IfSome result (λ line. (line ≤ whole)
        × (events_in (take (whole - line) (drop line known.now)) ≡ Some events)) }
{
    let mut line = whole;
    let mut left = events;
    while left > 0 {
        if line == 0 {
            return None;
        }
        line -= 1;
        match known[line] {
            Known::Nothing => {}
            Known::OneEvent => left -= 1,
            Known::Other => return None,
        }
    }
    Some(line)
}

/// Keeps what is known of the line behind the first `whole`.
pub(crate) fn keep(all: &mut Vec<Known>, whole: usize, known: Known)
    requires within { whole ≤ length all.old.items }
    requires room { vec_len all.old < vec_capacity all.old }
    ensures { all.new.items ≡ take whole all.old.items ++ known ∷ [] }
{
    all.truncate(whole);
    all.push_reserved(known);
}
