//! Writing a classic capture.
ghost use Rattle.std.specs.Prelude.{All, map};
ghost use Rattle.em_text.specs.Writer.{Writes};
ghost use Rattle.em_pcap.specs.Writing.{header_text, record_text, capture_text, Fits, timed};

use crate::classic::SECOND;
use em_text::{WriteFailed, write_pieces, write_whole};
use std::io::Write;

/// The most octets of a frame that is written, which is the capture's snap length.
pub const MOST_OCTETS: usize = 65_535;

/// The latest time that is written, in nanoseconds since 1970 began: within a second of 2^32.
pub const MOST_TIME: u64 = 4_294_967_295_999_999_999;

/// The header of a file whose numbers have the lowest octet first, and whose times are in nanoseconds: magic_number,
/// version 2.4, thiszone, sigfigs, snaplen 65,535, network 1.
#[rattlefmt::skip]
const HEADER: [u8; 24] = [
    0x4D, 0x3C, 0xB2, 0xA1, 2, 0, 4, 0, 0, 0, 0, 0,
    0, 0, 0, 0, 0xFF, 0xFF, 0, 0, 1, 0, 0, 0,
];

/// A frame with its time, in nanoseconds since 1970 began. A number of steps can be a time.
#[derive(Clone, Copy, Debug)]
pub struct TimedFrame<'a> {
    pub time: u64,
    pub octets: &'a [u8],
}

/// Writes the header of a capture.
#[tactic(auto, unfolding(crate::specs::Writing::header_text))]
pub fn write_header<W: Write>(writer: &mut W) -> Result<(), WriteFailed>
    ensures writes { Writes (W.contents writer.old) (W.contents writer.new) result header_text }
{
    write_whole(writer, &HEADER)
}

/// Writes a record behind a capture's header or another record: a frame of at most [`MOST_OCTETS`], with a time of at
/// most [`MOST_TIME`].
pub fn write_record<W: Write>(writer: &mut W, frame: TimedFrame<'_>) -> Result<(), WriteFailed>
    requires { Fits (timed frame) }
    ensures writes { Writes (W.contents writer.old) (W.contents writer.new) result (record_text (timed frame.entry)) }
{
    let seconds = ((frame.time / SECOND) as u32).to_le_bytes();
    let nanoseconds = ((frame.time % SECOND) as u32).to_le_bytes();
    let len = (frame.octets.len() as u32).to_le_bytes();
    write_pieces(writer, &[&seconds, &nanoseconds, &len, &len, frame.octets])
}

/// Writes a capture of these frames, each of at most [`MOST_OCTETS`], with a time of at most [`MOST_TIME`].
pub fn write_capture<W: Write>(writer: &mut W, frames: &[TimedFrame<'_>]) -> Result<(), WriteFailed>
    requires { All (λ frame. Fits (timed frame)) frames.now }
    ensures writes { Writes (W.contents writer.old) (W.contents writer.new) result
        (capture_text (map timed frames.now)) }
{
    write_header(writer)?;
    for frame in frames {
        write_record(writer, *frame)?;
    }
    Ok(())
}
