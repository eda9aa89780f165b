//! Going along lines that did no more than one event each, from where the session is.
ghost use Rattle.std.specs.Prelude.{◌≡◌, ◌<◌, ◌≤◌, ◌^◌, ◌∷◌, [], All, Bool, List, ℕ, false, length, take, IsTrue, IsNone, IfSome, Some};
ghost use Rattle.em_tape.specs.Texts.{texts};
ghost use Rattle.em_line.specs.Grammar.{parsed_line};
ghost use Rattle.em_script.specs.PlayedLine.{PlayedLine, after_all};
ghost use Rattle.em_script.specs.Session.{Session as View};
ghost use Rattle.em_named.specs.declared.did.Did.{Did};
ghost use Rattle.em_tape.specs.Known.{AllDo, AreDone, Does, IsKnown, PerformsOne, events_in};
ghost use Rattle.em_tape.specs.Tape.{IsShort};

use crate::known::{Known, events_of, line_before};
use crate::text::Text;
use em_script::{Player, Session};
use em_trail::Traced;
use std::io::sink;

/// Goes to behind so many lines, from where `back` events of the first `whole` are taken back. False where other lines
/// lie between, or where memory is refused: then the session stays.
pub(crate) fn go_along(
    player: &mut Player,
    session: &mut Session<Traced>,
    lines: &[Text],
    known: &[Known],
    whole: usize,
    back: usize,
    line: usize,
) -> bool
    requires short { All IsShort (texts lines.now) }
    requires known { length known.now ≤ length lines.now }
    requires within { whole ≤ length known.now }
    requires room { length session.old.machine.past < 2 ^ 64 }
    ensures there { IsTrue result → (first : View) (did : List Did) (answered : Bool)
        → IsKnown first (texts lines.now) did answered known.now whole back session.old
        → IsKnown first (texts lines.now) did answered known.now line 0 session.new }
    ensures same { result ≡ false → (first : View) (did : List Did) (answered : Bool)
        → IsKnown first (texts lines.now) did answered known.now whole back session.old → session.new ≡ session.old }
    ensures within { IsTrue result → line ≤ length known.now }
    ensures room { length session.new.machine.past < 2 ^ 64 }
{
    let Some(here) = line_before(known, whole, back) else {
        return false;
    };
    if line <= here {
        return take_back(session, &known[line..here]);
    }
    if line > known.len() {
        return false;
    }
    perform_again(player, session, &lines[here..line], &known[here..line])
}

/// Takes back what lines did, each of them no more than one event. False where one of them did something else: then the
/// session stays.
fn take_back(session: &mut Session<Traced>, known: &[Known]) -> bool
    requires room { length session.old.machine.past < 2 ^ 64 }
    ensures there { IsTrue result → (all : List PlayedLine) (first : View) → AllDo known.now all first
        → session.old ≡ after_all (take (length known.now) all) first → session.new ≡ first }
    ensures same { result ≡ false → session.new ≡ session.old }
    ensures room { length session.new.machine.past < 2 ^ 64 }
{
    match events_of(known) {
        Some(events) => {
            let _taken = session.back_by(events);
            true
        }
        None => false,
    }
}

/// Performs lines again, each of which did no more than one event. False where one of them did something else, or does
/// not do so again: then the session stays.
fn perform_again(
    player: &mut Player,
    session: &mut Session<Traced>,
    lines: &[Text],
    known: &[Known],
) -> bool
    requires short { All IsShort (texts lines.now) }
    requires known { length known.now ≤ length lines.now }
    requires room { length session.old.machine.past < 2 ^ 64 }
    ensures there { IsTrue result → (all : List PlayedLine)
        → AreDone all known.now (texts lines.now) session.old
        → session.new ≡ after_all (take (length known.now) all) session.old }
    ensures same { result ≡ false → (all : List PlayedLine)
        → AreDone all known.now (texts lines.now) session.old → session.new ≡ session.old }
    ensures room { length session.new.machine.past < 2 ^ 64 }
{
    let mut events = 0;
    let mut done = 0;
    while done < known.len() {
        match do_again(player, session, lines[done].as_slice(), known[done]) {
            Some(more) => events += more,
            None => {
                let _taken = session.back_by(events);
                return false;
            }
        }
        done += 1;
    }
    true
}

/// Does again what a line did, and gives how many events that were. None where it did something else, or does nothing
/// now: then the session stays.
fn do_again(
    player: &mut Player,
    session: &mut Session<Traced>,
    line: &[u8],
    known: Known,
) -> Option<usize>
    requires { IsShort line.now }
    ensures does { IfSome result (λ events. (events_in (known ∷ []) ≡ Some events) × ((after : View)
        → Does known (parsed_line line.now) session.old after → session.new ≡ after)) }
    ensures same { IsNone result → (after : View) → Does known (parsed_line line.now) session.old after
        → session.new ≡ session.old }
    ensures room { length session.old.machine.past < 2 ^ 64 → length session.new.machine.past < 2 ^ 64 }
{
    match known {
        Known::Nothing => Some(0),
        Known::OneEvent => {
            if perform_one(player, session, line) {
                Some(1)
            } else {
                None
            }
        }
        Known::Other => None,
    }
}

/// Performs a line again that did one event. False where it does nothing now.
fn perform_one(player: &mut Player, session: &mut Session<Traced>, line: &[u8]) -> bool
    requires { IsShort line.now }
    ensures does { IsTrue result → (after : View) → PerformsOne (parsed_line line.now) session.old after
        → session.new ≡ after }
    ensures same { result ≡ false → (after : View) → PerformsOne (parsed_line line.now) session.old after
        → session.new ≡ session.old }
    ensures room { length session.new.machine.past < 2 ^ 64 }
{
    let before = session.machine().can_go_back();
    // Nobody asks for the answer: it was given before.
    let _played = player.play(&mut sink(), session, 1, line);
    session.machine().can_go_back() > before
}
