//! What a step of the receive engine did, and what takes it back.
ghost use Rattle.std.specs.Prelude.{◌≡◌, ◌≤◌, length};
ghost use Rattle.em_rx.specs.Records.{IsWhole, record_of};
ghost use Rattle.em_rx.specs.RxStep.{answer_of, saved_by, undo_of};

use crate::undo::{OldPiece, RxUndo};
use em_mem::OldOctets;

/// What a receive step did.
#[derive(Clone, Copy, Debug, PartialEq, Eq)]
pub enum RxAnswer {
    /// No descriptor is the adapter's, or no frame waits.
    Idle,
    /// Descriptor `index` was filled and written back. RDH is `next` from now on, and `causes` are
    /// raised in ICR: RXT0, RXDMT0, both or none.
    Wrote { index: u32, next: u32, causes: u32 },
}

/// What a receive step did, with what takes it back beside the octets that it saved.
#[derive(Clone, Copy)]
pub enum RxStep {
    /// It was idle, and nothing changed.
    Idle,
    /// It wrote, as `RxAnswer::Wrote` says, and replaced what the piece says.
    Wrote {
        index: u32,
        next: u32,
        causes: u32,
        piece: OldPiece,
    },
}

impl RxStep {
    /// The answer, and the record by itself, which takes the octets that the step saved.
    pub(crate) fn into_parts(self, old: OldOctets) -> (RxAnswer, RxUndo)
        ensures answer { result.0 ≡ answer_of self }
        ensures undo { record_of result.1 ≡ undo_of self old }
        ensures whole { saved_by self ≤ length old.octets → IsWhole result.1 }
    {
        match self {
            RxStep::Idle => (RxAnswer::Idle, RxUndo::Nothing),
            RxStep::Wrote {
                index,
                next,
                causes,
                piece,
            } => {
                let answer = RxAnswer::Wrote {
                    index,
                    next,
                    causes,
                };
                (answer, RxUndo::Step(piece, old))
            }
        }
    }
}
