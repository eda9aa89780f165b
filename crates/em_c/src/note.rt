//! What an event was, as C sees it.
ghost use Rattle.std.specs.Prelude.{◌≡◌};
ghost use Rattle.em_c.specs.Note.{number_of_reason, number_of_kind, told_note};

use em_step::Reason;
use em_trail::{Kind, Note};

/// An event that was performed.
#[repr(C)]
#[derive(Clone, Copy)]
pub struct EmNote {
    /// What the caller called it by.
    pub tag: u64,
    /// Of an access the register's offset, of a memory write its address, of an engine's step that was not idle its
    /// descriptor's address; else 0.
    pub at: u64,
    /// How many octets: of an access 4, of a memory write those written, of an arrival or a frame that was sent
    /// the frame's; else 0.
    pub length: u32,
    /// Of a read the value that it gave, of a write the value written, of an engine's step that was not idle the
    /// descriptor's index; else 0.
    pub value: u32,
    /// What it was, and what came of it: the number of its kind.
    pub kind: u32,
    /// How many octets an engine's step wrote into its buffer or read there; else 0.
    pub octets: u32,
    /// Where in guest memory they lie; else 0, as of no octets.
    pub buffer: u64,
}

impl EmNote {
    /// What a note tells.
    pub fn of(note: Note) -> EmNote
        ensures { result ≡ told_note note }
    {
        EmNote {
            tag: note.tag,
            at: note.at,
            length: note.length,
            value: note.value,
            kind: number_of_kind(note.kind),
            octets: note.octets,
            buffer: note.buffer,
        }
    }
}

/// The number of an event's kind.
fn number_of_kind(kind: Kind) -> u32
    ensures { result ≡ number_of_kind kind }
{
    match kind {
        Kind::Read => 1,
        Kind::Write => 2,
        Kind::Poke => 3,
        Kind::LinkUp => 4,
        Kind::LinkDown => 5,
        Kind::ReceiveIdle => 6,
        Kind::Wrote => 7,
        Kind::TransmitIdle => 8,
        Kind::Fetched => 9,
        Kind::Sent => 10,
        Kind::Stored => 11,
        Kind::Dropped(reason) => number_of_reason(reason),
    }
}

/// The number of a frame that was dropped.
fn number_of_reason(reason: Reason) -> u32
    ensures { result ≡ number_of_reason reason }
{
    match reason {
        Reason::Down => 12,
        Reason::Disabled => 13,
        Reason::Rejected => 14,
        Reason::Undersize => 15,
        Reason::Oversize => 16,
        Reason::Missed => 17,
    }
}
