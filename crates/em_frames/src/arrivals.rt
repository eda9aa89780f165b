//! The frames of a capture as lines of a script that bring them.
ghost use Rattle.std.specs.Prelude.{◌≡◌, ◌++◌, [], None};
ghost use Rattle.em_pcap.specs.Frame.{frame_of};
ghost use Rattle.em_pcap.specs.Reading.{reading_of};
ghost use Rattle.em_text.specs.Writer.{Writes, hex_text};
ghost use Rattle.em_frames.specs.Arrivals.{Adds, AreArrivals, arrival_of, is_unpadded, padding_text, with_frame};
ghost use Rattle.em_frames.specs.Arrivals.{with_padded};

use em_pcap::{Capture, CaptureError, Packet};
use em_text::{WriteFailed, write_octets, write_whole};
use std::alloc::Global;
use std::collections::VecDeque;
use std::io::Write;

/// How many octets the shortest frame on a wire has, without its check sequence.
pub const LEAST_FRAME: u32 = 60;

/// The frames of a capture, up to its end or its first fault.
#[derive(Drop)]
pub struct Arrivals {
    /// Of each frame, in their order, the line that brings it, as [`write_arrival`] writes it.
    pub lines: VecDeque<Vec<u8>>,
    /// How many of the frames were cut.
    pub cut: u64,
    /// How many of the lines pad the frame that they bring.
    pub padded: u64,
    /// Why there are no more, where not for the capture's end.
    pub error: Option<CaptureError>,
}

impl Arrivals {
    fn none(alloc: Global) -> Arrivals
        ensures { (result.lines.items ≡ []) × ((result.cut ≡ 0) × ((result.padded ≡ 0) × (result.error ≡ None))) }
    {
        Arrivals {
            lines: VecDeque::new(alloc),
            cut: 0,
            padded: 0,
            error: None,
        }
    }

    /// Adds a packet's frame; false where memory is refused for its line.
    fn add(&mut self, alloc: Global, packet: &Packet<'_>) -> bool
        ensures { Adds (frame_of packet.now) self.old self.new result }
    {
        let mut line = Vec::new(alloc);
        if write_arrival(&mut line, packet).is_err() {
            return false;
        }
        if self.lines.push_back(line).is_err() {
            return false;
        }
        self.cut = with_frame(self.cut, packet);
        self.padded = with_padded(self.padded, packet);
        true
    }
}

/// The frames of a capture, from the octets of its file, which a machine of this address made. Where memory is refused,
/// those up to there, and the error says so.
pub fn arrivals_of(alloc: Global, file: &[u8], own: [u8; 6]) -> Arrivals
    ensures { AreArrivals (reading_of own file.now) result }
{
    let mut arrivals = Arrivals::none(alloc);
    let mut capture = Capture::new(alloc, file, own);
    'packets: loop {
        match capture.next_packet() {
            None => return arrivals,
            Some(Ok(packet)) => {
                if !arrivals.add(alloc, &packet) {
                    arrivals.error = Some(CaptureError::Memory);
                    return arrivals;
                }
            }
            Some(Err(error)) => {
                arrivals.error = Some(error);
                return arrivals;
            }
        }
    }
}

/// How many frames are cut, with one frame more.
fn with_frame(cut: u64, packet: &Packet<'_>) -> u64
    ensures { result ≡ with_frame cut (frame_of packet.now) }
{
    if packet.cut().is_some() {
        cut.saturating_add(1)
    } else {
        cut
    }
}

/// How many frames are padded, with one frame more.
fn with_padded(padded: u64, packet: &Packet<'_>) -> u64
    ensures { result ≡ with_padded padded (frame_of packet.now) }
{
    if is_unpadded(packet) {
        padded.saturating_add(1)
    } else {
        padded
    }
}

/// Whether a frame was captured before it was padded: it had fewer than [`LEAST_FRAME`] octets then, as no frame on a
/// wire has.
pub fn is_unpadded(packet: &Packet<'_>) -> bool
    ensures { result ≡ is_unpadded (frame_of packet.now) }
{
    packet.original < LEAST_FRAME && packet.captured() < LEAST_FRAME as usize
}

/// Writes the line that brings a captured frame, without a newline: `arrive DATA` with what was captured of it, and 60
/// behind that where it was captured before it was padded, so that it arrives padded with zero octets.
pub fn write_arrival<W: Write>(writer: &mut W, packet: &Packet<'_>) -> Result<(), WriteFailed>
    ensures writes { Writes (W.contents writer.old) (W.contents writer.new) result (arrival_of (frame_of packet.now)) }
{
    write_whole(writer, b"arrive ")?;
    write_frame(writer, packet)?;
    write_padding(writer, is_unpadded(packet))
}

/// Writes what was captured of a frame.
fn write_frame<W: Write>(writer: &mut W, packet: &Packet<'_>) -> Result<(), WriteFailed>
    ensures writes { Writes (W.contents writer.old) (W.contents writer.new) result
        (hex_text (frame_of packet.now).octets) }
{
    match packet.header {
        Some(header) => write_both(writer, header.as_slice(), packet.octets),
        None => write_octets(writer, packet.octets),
    }
}

/// Writes octets, and others behind them.
fn write_both<W: Write>(writer: &mut W, front: &[u8], behind: &[u8]) -> Result<(), WriteFailed>
    ensures writes { Writes (W.contents writer.old) (W.contents writer.new) result
        (hex_text front.now ++ hex_text behind.now) }
{
    write_octets(writer, front)?;
    write_octets(writer, behind)
}

/// Writes how long a frame is that is padded, behind its octets.
fn write_padding<W: Write>(writer: &mut W, unpadded: bool) -> Result<(), WriteFailed>
    ensures writes { Writes (W.contents writer.old) (W.contents writer.new) result (padding_text unpadded) }
{
    if unpadded {
        return write_whole(writer, b" 60");
    }
    Ok(())
}
