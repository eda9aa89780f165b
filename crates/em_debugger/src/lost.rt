//! Frames that were lost: by the answer of the line that brought them, and by notes of a driver's call.
ghost use Rattle.std.specs.Prelude.{◌≡◌};
ghost use Rattle.em_debugger.specs.Lost.{LosesSo, LostSo, held_of, is_dropped, is_lost, performed_of};

use crate::performing::Performed;
use em_named::Did;
use em_script::Outcome;
use em_step::Answer;
use em_tape::Tape;
use em_trail::Kind;

/// Whether an event of a line lost a frame, right behind that line: the line's own, by what it was answered; or one of a
/// call of a driver, by its note.
pub(crate) fn loses(tape: &Tape, performed: Performed) -> bool
    ensures { LosesSo performed.outcome (held_of performed.line tape.now) tape.now result }
{
    match performed.outcome {
        Outcome::Answered(answer) => is_dropped(answer),
        _ => lost_in(tape, performed.line),
    }
}

/// Whether an answer says that a frame was dropped.
fn is_dropped(answer: Answer) -> bool
    ensures { result ≡ is_dropped answer }
{
    matches!(answer, Answer::Dropped(_))
}

/// Whether a note of an event of a line says that it lost a frame. Where a call has more events than the journal holds,
/// the newest are asked.
fn lost_in(tape: &Tape, line: usize) -> bool
    ensures { LostSo tape.now (held_of line tape.now) result }
{
    let events = performed_of(tape.performed_by(line)).min(tape.machine().can_go_back());
    let mut steps = 0;
    while steps < events {
        let Some(note) = tape.note_back(steps) else {
            unreachable!()
        };
        if is_lost(note.kind) {
            return true;
        }
        steps += 1;
    }
    false
}

/// How many events a line performed that did this.
fn performed_of(did: Option<Did>) -> usize
    ensures { result ≡ performed_of did }
{
    match did {
        Some(Did::Performed(count)) => count as usize,
        Some(Did::TookBack(_)) | None => 0,
    }
}

/// Whether an event of this kind brought a frame that was dropped.
fn is_lost(kind: Kind) -> bool
    ensures { result ≡ is_lost kind }
{
    matches!(kind, Kind::Dropped(_))
}
