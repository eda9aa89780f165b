//! What a step of the transmit engine did, and what takes it back.
ghost use Rattle.std.specs.Prelude.{◌≡◌, ◌≤◌, length};
ghost use Rattle.em_tx.specs.Frame.{kind_sent};
ghost use Rattle.em_tx.specs.TxStep.{answer_of, undo_of};

use crate::change::Change;
use crate::frame;
use crate::undo::TxUndo;
use em_address::Kind;

/// What a step did. `index` is the descriptor that it handled, `next` the one after it in the ring,
/// and `causes` the interrupt causes to raise.
#[derive(Clone, Copy, PartialEq, Eq, Debug)]
pub enum TxAnswer {
    /// No descriptor was the adapter's.
    Idle,
    /// The octets of a buffer were gathered.
    Fetched {
        index: u32,
        next: u32,
        causes: u32,
    },
    /// They were, and a frame of so many octets, tag and padding among them, went to the wire.
    Sent {
        index: u32,
        next: u32,
        causes: u32,
        octets: u32,
        kind: Kind,
    },
}

/// A frame that a step sent.
#[derive(Clone, Copy)]
pub struct SentFrame {
    /// How many octets it has, tag and padding among them: at most 16,384.
    pub octets: u32,
    pub kind: Kind,
    /// Whether a tag was inserted.
    pub tagged: bool,
}

impl SentFrame {
    pub(crate) fn of(frame: &[u8], tagged: bool) -> SentFrame
        requires { length frame.now ≤ 16384 }
        ensures { result ≡ record { octets = length frame.now; kind = kind_sent frame.now; tagged = tagged } }
    {
        SentFrame {
            octets: frame.len() as u32,
            kind: frame::kind_sent(frame),
            tagged,
        }
    }
}

/// What a step did, with the record that takes it back.
#[derive(Drop)]
pub enum TxStep {
    /// It was idle, and nothing changed.
    Idle,
    /// It handled a descriptor, as `TxAnswer` says: it sent a frame, or gathered octets for one.
    Handled {
        index: u32,
        next: u32,
        causes: u32,
        frame: Option<SentFrame>,
        change: Change,
    },
}

impl TxStep {
    /// The answer, and the record by itself.
    pub(crate) fn into_parts(self) -> (TxAnswer, TxUndo)
        ensures { result ≡ (answer_of self, undo_of self) }
    {
        match self {
            TxStep::Idle => (TxAnswer::Idle, TxUndo::Nothing),
            TxStep::Handled {
                index,
                next,
                causes,
                frame,
                change,
            } => {
                let answer = match frame {
                    Some(sent) => TxAnswer::Sent {
                        index,
                        next,
                        causes,
                        octets: sent.octets,
                        kind: sent.kind,
                    },
                    None => TxAnswer::Fetched {
                        index,
                        next,
                        causes,
                    },
                };
                (answer, TxUndo::Step(change))
            }
        }
    }
}
