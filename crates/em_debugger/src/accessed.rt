//! The newest access of a register that no event changed.
ghost use Rattle.std.specs.Prelude.{◌≡◌};
ghost use Rattle.em_text.specs.Writer.{Writes};
ghost use Rattle.em_debugger.specs.Accessed.{IsNewestAccess, came_text, is_access, is_access_kind, left_text};

use em_tape::Tape;
use em_text::{WriteFailed, write_whole};
use em_trail::{Kind, Note};
use em_watch::{Sight, Watch, seen_back};
use std::io::Write;

/// An access of what is watched: the event, its note, and what is seen behind it.
#[derive(Clone, Copy)]
pub(crate) struct Accessed {
    pub(crate) event: u64,
    pub(crate) note: Note,
    pub(crate) seen: Option<Sight>,
}

/// The newest access of what is watched, from so many steps back on, as far as the journal reaches.
pub(crate) fn newest_access(tape: &Tape, watch: Watch, back: usize) -> Option<Accessed>
    ensures { IsNewestAccess tape.now watch back result }
{
    let reach = tape.machine().can_go_back();
    let mut steps = back;
    while steps < reach {
        let Some(note) = tape.note_back(steps) else {
            unreachable!()
        };
        if is_access(watch, note) {
            return Some(Accessed {
                event: tape.event_back(steps),
                note,
                seen: seen_back(tape.machine(), watch, steps),
            });
        }
        steps += 1;
    }
    None
}

/// Whether an event was an access of what is watched, by its note.
fn is_access(watch: Watch, note: Note) -> bool
    ensures { result ≡ is_access watch note }
{
    match watch {
        Watch::Register(reg) => is_access_kind(note.kind) && note.at == u64::from(reg.offset()),
        _ => false,
    }
}

pub(crate) fn is_access_kind(kind: Kind) -> bool
    ensures { result ≡ is_access_kind kind }
{
    matches!(kind, Kind::Read | Kind::Write)
}

/// Writes what came of an access that changed nothing.
pub(crate) fn write_came<W: Write>(writer: &mut W, accessed: Accessed) -> Result<(), WriteFailed>
    ensures writes { Writes (W.contents writer.old) (W.contents writer.new) result
        (came_text accessed.note.kind accessed.note.value accessed.seen) }
{
    match (accessed.note.kind, accessed.seen) {
        (Kind::Write, Some(Sight::Value(held))) => {
            write_whole(writer, left(accessed.note.value, held))
        }
        _ => Ok(()),
    }
}

/// What a write of a value left, where the register holds this.
fn left(value: u32, held: u32) -> &'static [u8]
    ensures { result.now ≡ left_text value held }
{
    if value == held {
        b", which it held"
    } else if value & held == 0 {
        b", of which no bit is kept"
    } else {
        b", which left it as it was"
    }
}
