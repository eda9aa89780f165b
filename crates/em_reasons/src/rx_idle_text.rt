//! Why a receive step is idle, in words.
ghost use Rattle.em_text.specs.Writer.{Writes};
ghost use Rattle.em_reasons.specs.RxIdleText.{rx_idle_text};

use crate::RxIdle;
use crate::ring_text::{write_empty, write_past};
use em_text::{WriteFailed, write_whole};
use std::io::Write;

/// Writes why a receive step is idle: `RDT 16 is past the ring of 16`.
pub fn write_rx_idle<W: Write>(writer: &mut W, reason: RxIdle) -> Result<(), WriteFailed>
    ensures writes { Writes (W.contents writer.old) (W.contents writer.new) result (rx_idle_text reason) }
{
    match reason {
        RxIdle::Disabled => write_whole(writer, b"RCTL.EN is clear"),
        RxIdle::NoRing => write_whole(writer, b"the ring has no descriptor (RDLEN = 0)"),
        RxIdle::HeadPast { head, count } => write_past(writer, b"RDH", head, count),
        RxIdle::TailPast { tail, count } => write_past(writer, b"RDT", tail, count),
        RxIdle::Empty { at } => write_empty(writer, b"RDH = RDT", at),
        RxIdle::NoFrame => write_whole(writer, b"no frame waits"),
    }
}
