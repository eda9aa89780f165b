//! The record of a change of the FIFO.
ghost use Rattle.std.specs.Prelude.{◌≡◌, ◌<◌};
ghost use Rattle.em_rx.specs.Records.{record_of, saved_of};
ghost use Rattle.em_rx.specs.Undo.{octets_held};

use crate::descriptor::WRITTEN_OCTETS;
use crate::places::{Entry, Places};
use em_mem::OldOctets;

/// What an arrival replaced beside octets, which lie first among old octets.
#[derive(Clone, Copy)]
pub struct OldFrame {
    /// The entry that lay at its index.
    pub(crate) entry: Entry,
    /// How many octets lay under the frame.
    pub(crate) len: u16,
}

impl OldFrame {
    /// How many old octets are its own.
    #[inline(always)]
    pub fn len(&self) -> usize
        ensures len { result ≡ self.now.len }
        ensures few { result < 65_536 }
    {
        self.len as usize
    }
}

/// What a receive step replaced beside octets. Those of its piece lie first among old octets, and behind them those of
/// the descriptor's end.
#[derive(Clone, Copy)]
pub struct OldPiece {
    /// Where the piece lies in guest memory.
    pub buffer: u64,
    /// Where the end of its descriptor lies.
    pub end_at: u64,
    /// How many octets the piece has.
    pub len: u16,
    /// Whether the frame left the FIFO with it.
    pub left: bool,
}

impl OldPiece {
    /// How many old octets are its own: those of the piece, and 8 of the descriptor.
    #[inline(always)]
    pub fn len(&self) -> usize
        ensures { result ≡ saved_of self.now }
    {
        self.len as usize + WRITTEN_OCTETS
    }
}

/// The most octets that a record has: a piece of a frame, and 8 octets of a descriptor.
pub const MOST_HELD: u32 = 16_392;

/// What takes a change of the receive side back by itself, with old octets of its own.
#[derive(Drop)]
pub enum RxUndo {
    /// Nothing changed.
    Nothing,
    /// The places, of a FIFO that was cleared.
    Places(Places),
    /// What an arrival replaced.
    Frame(OldFrame, OldOctets),
    /// What a receive step replaced.
    Step(OldPiece, OldOctets),
}

impl RxUndo {
    /// How many octets it holds: those that an arrival stored, or those that a receive step wrote, 8
    /// of the descriptor among them.
    pub fn len(&self) -> u32
        ensures { result ≡ octets_held (record_of self.now) }
    {
        match self {
            RxUndo::Nothing | RxUndo::Places(_) => 0,
            RxUndo::Frame(frame, old) => frame.len().min(old.room()) as u32,
            RxUndo::Step(piece, old) => piece.len().min(old.room()) as u32,
        }
    }
}
