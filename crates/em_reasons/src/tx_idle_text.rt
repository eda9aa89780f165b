//! Why a transmit step is idle, in words.
ghost use Rattle.em_text.specs.Writer.{Writes};
ghost use Rattle.em_reasons.specs.TxIdleText.{tx_idle_text};

use crate::TxIdle;
use crate::ring_text::{write_empty, write_past};
use em_text::{WriteFailed, write_whole};
use std::io::Write;

/// Writes why a transmit step is idle: `the ring is empty (TDH = TDT = 3)`.
pub fn write_tx_idle<W: Write>(writer: &mut W, reason: TxIdle) -> Result<(), WriteFailed>
    ensures writes { Writes (W.contents writer.old) (W.contents writer.new) result (tx_idle_text reason) }
{
    match reason {
        TxIdle::Disabled => write_whole(writer, b"TCTL.EN is clear"),
        TxIdle::NoRing => write_whole(writer, b"the ring has no descriptor (TDLEN = 0)"),
        TxIdle::HeadPast { head, count } => write_past(writer, b"TDH", head, count),
        TxIdle::TailPast { tail, count } => write_past(writer, b"TDT", tail, count),
        TxIdle::Empty { at } => write_empty(writer, b"TDH = TDT", at),
        TxIdle::LinkDown => write_whole(writer, b"the link is down, and RCTL.LBM is 0"),
    }
}
