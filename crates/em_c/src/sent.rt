//! The frames that a machine sent as a capture: its header and its records, one by one.
ghost use Rattle.std.specs.Prelude.{◌≡◌, []};
ghost use Rattle.em_pcap.specs.Writing.{header_text};
ghost use Rattle.em_frames.specs.Sent.{frame_text};
ghost use Rattle.em_c.specs.Text.{Says, said};
ghost use Rattle.em_c.specs.Sent.{TellsRecord, TellsSent};

use crate::handle::EmMachine;
use crate::refused::{DONE, Refused};
use crate::text::Text;
use em_journal::Machine;
use em_pcap::{MOST_OCTETS, MOST_TIME, TimedFrame, write_header, write_record};

/// The header of a capture.
#[unsafe(no_mangle)]
pub extern "C" fn capture_head(text: &mut Text)
    ensures { Says text.new header_text }
{
    text.clear();
    if write_header(text).is_err() {
        text.clear();
    }
}

/// The record of a frame that was sent, the first one at 0, with its time in nanoseconds.
#[unsafe(no_mangle)]
pub extern "C" fn capture_record(
    machine: &mut EmMachine,
    index: usize,
    time: u64,
    text: &mut Text,
) -> u32
    ensures record { TellsRecord machine.old.sealed.held index time text.new result }
    ensures same { machine.new.sealed.held ≡ machine.old.sealed.held }
{
    text.clear();
    match machine.held() {
        Ok(held) => tell_sent(held.looked_at(), index, time, text),
        Err(refused) => refused.number(),
    }
}

/// The record of a frame that a machine sent.
fn tell_sent(machine: &Machine, index: usize, time: u64, text: &mut Text) -> u32
    requires { said text.old ≡ [] }
    ensures { TellsSent machine.now index time text.new result }
{
    match machine.wire_frame(index) {
        Some(frame) => {
            tell_record(text, time, frame);
            DONE
        }
        None => Refused::NoFrame.number(),
    }
}

/// The record of a frame; nothing where there is no room for all of it. Its time and its octets are as large as a record
/// allows at most.
fn tell_record(text: &mut Text, time: u64, frame: &[u8])
    ensures { Says text.new (frame_text time frame.now) }
{
    text.clear();
    let frame = TimedFrame {
        time: time.min(MOST_TIME),
        octets: &frame[..frame.len().min(MOST_OCTETS)],
    };
    if write_record(text, frame).is_err() {
        text.clear();
    }
}
