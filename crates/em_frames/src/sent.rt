//! The frames that a machine sent, as a capture.
ghost use Rattle.std.specs.Prelude.{◌≡◌, [], OnOk, length, slice_get, unwrap_or};
ghost use Rattle.std.specs.Io.KnownBytes.{Appends};
ghost use Rattle.em_text.specs.Writer.{Writes};
ghost use Rattle.em_frames.specs.Sent.{frame_text, sent_capture};

use em_journal::Machine;
use em_pcap::{MOST_OCTETS, MOST_TIME, TimedFrame, write_header, write_record};
use em_text::WriteFailed;
use std::io::Write;

/// Writes the frames that a machine sent as a capture, the first one first. A machine has no clock: the time of each frame,
/// in nanoseconds, is the caller's.
pub fn write_sent<W: Write>(
    writer: &mut W,
    machine: &Machine,
    times: &[u64],
) -> Result<(), WriteFailed>
    requires { length times.now ≡ length machine.now.present.wire }
    ensures ok { OnOk result (Appends (W.contents writer.old) (W.contents writer.new)
        (sent_capture times.now machine.now.present.wire)) }
{
    write_header(writer)?;
    for index in 0..machine.wire_len() {
        write_frame(writer, times[index], sent_frame(machine, index))?;
    }
    Ok(())
}

/// The frame of this number; of none that was sent, no octet.
fn sent_frame(machine: &Machine, index: usize) -> &[u8]
    ensures { result.now ≡ unwrap_or (slice_get machine.now.present.wire index) [] }
{
    machine.wire_frame(index).unwrap_or_default()
}

/// Writes a record for a frame.
fn write_frame<W: Write>(writer: &mut W, time: u64, frame: &[u8]) -> Result<(), WriteFailed>
    ensures writes { Writes (W.contents writer.old) (W.contents writer.new) result (frame_text time frame.now) }
{
    let frame = TimedFrame {
        time: time.min(MOST_TIME),
        octets: &frame[..frame.len().min(MOST_OCTETS)],
    };
    write_record(writer, frame)
}
