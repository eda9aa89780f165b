//! The frames of a capture, as they arrive in a script.
ghost use Rattle.std.specs.Prelude.{◌<◌};

use crate::arriving::{Arrival, Why};
use crate::shown::Address;
use crate::text::write_text;
use anyhow::{Result, bail};
use em_frames::{LEAST_FRAME, is_unpadded, write_arrival};
use em_pcap::{Capture, Packet};
use std::alloc::Global;
use std::io::Write;

/// The longest frame that can arrive.
const MOST_FRAME: u32 = 20_000;

/// RCTL's field BSIZE, the size of a receive buffer, and how far up it lies.
const BSIZE: u32 = 0x0003_0000;

const BSIZE_AT: u32 = 16;

/// RCTL's bit BSEX, by which buffers are 16 times as large.
const BSEX: u32 = 0x0200_0000;

/// How many nanoseconds a second has.
const SECOND: u64 = 1_000_000_000;

/// The frames of a capture that have not arrived yet.
#[derive(Drop)]
pub struct Frames<'a> {
    arrivals: Vec<Arrival<'a>>,
    /// How many of them have arrived, or are left out.
    passed: usize,
    /// What RCTL holds.
    rctl: u32,
}

impl<'a> Frames<'a> {
    /// No frame.
    pub fn none(alloc: Global) -> Frames<'a> {
        Frames {
            arrivals: Vec::new(alloc),
            passed: 0,
            rctl: 0,
        }
    }

    /// Those that arrive so.
    pub fn new(arrivals: Vec<Arrival<'a>>) -> Frames<'a> {
        Frames {
            arrivals,
            passed: 0,
            rctl: 0,
        }
    }

    /// RCTL was written: receive buffers may have another size.
    pub fn set_rctl(&mut self, rctl: u32) {
        self.rctl = rctl;
    }

    /// Leaves out those that arrive before this line, and gives how many they are.
    pub fn pass_over(&mut self, line: u64) -> u64 {
        let mut count = 0u64;
        for passed in self.passed..self.arrivals.len() {
            if !self.next_line().is_some_and(|next| next < line) {
                break;
            }
            self.passed = passed.saturating_add(1);
            count = count.saturating_add(1);
        }
        count
    }

    /// The line before which the next one arrives, if it is not behind the last line.
    fn next_line(&self) -> Option<u64> {
        self.arrivals.get(self.passed)?.line
    }

    /// Whether one arrives right before this line.
    pub fn is_due(&self, line: u64) -> bool {
        self.next_line() == Some(line)
    }

    /// How many are left.
    pub fn left(&self) -> u64 {
        self.arrivals.len().saturating_sub(self.passed) as u64
    }

    /// Writes the lines of the next frame: it arrives, and the receive engine handles as many descriptors as it takes.
    /// Gives the frame; none where there is none.
    pub fn write_next<W: Write>(&mut self, out: &mut W) -> Result<Option<Arrival<'a>>> {
        let Some(arrival) = self.arrivals.get(self.passed).copied() else {
            return Ok(None);
        };
        self.passed = self.passed.saturating_add(1);
        let len = len_of(&arrival.packet);
        write_said(out, &arrival)?;
        write_line(out, &arrival, len)?;
        for step in 0..len.div_ceil(self.buffer_len()) {
            write_text(out, b"rx\n")?;
        }
        Ok(Some(arrival))
    }

    /// How many octets a receive buffer has.
    fn buffer_len(&self) -> u32
        ensures { 0 < result }
    {
        let size = (self.rctl & BSIZE) >> BSIZE_AT;
        match (size, self.rctl & BSEX != 0) {
            (1, true) => 16_384,
            (2, true) => 8_192,
            (3, true) => 4_096,
            (1, false) => 1_024,
            (2, false) => 512,
            (3, false) => 256,
            _ => 2_048,
        }
    }
}

/// The frames of the capture of this name, each of which can arrive; `own` is the address of who made it.
pub fn packets_of<'a>(
    alloc: Global,
    name: &str,
    octets: &'a [u8],
    own: Address,
) -> Result<Vec<Packet<'a>>> {
    let mut packets = Vec::new(alloc);
    for given in Capture::new(alloc, octets, own) {
        match given {
            Ok(packet) => {
                let len = len_of(&packet);
                if len > MOST_FRAME {
                    bail!(
                        "{name}: a frame of {len} octets cannot arrive: it has at most {MOST_FRAME}"
                    );
                }
                packets.push(packet)?;
            }
            Err(error) => bail!("{name}: {error}"),
        }
    }
    Ok(packets)
}

/// How many octets a frame has as it arrives.
fn len_of(packet: &Packet<'_>) -> u32 {
    packet.original.max(LEAST_FRAME)
}

/// Writes the line that brings a frame: its octets, where they are fewer than those of the frame its length, and behind
/// that its moment in the log's clock, if it has one, as behind the line of an access.
fn write_line<W: Write>(out: &mut W, arrival: &Arrival<'_>, len: u32) -> Result<()> {
    let packet = &arrival.packet;
    if write_arrival(out, packet).is_err() {
        bail!("the script cannot be written");
    }
    if !is_unpadded(packet) && packet.captured() < len as usize {
        write!(out, " {len}")?;
    }
    if let Why::Time(moment) | Why::Later(moment) = arrival.why {
        write!(out, " # {moment}")?;
    }
    write_text(out, b"\n")
}

/// Writes what is known of a frame, and what is guessed, as a comment.
fn write_said<W: Write>(out: &mut W, arrival: &Arrival<'_>) -> Result<()> {
    write!(out, "# frame {}", arrival.number)?;
    if let Some(time) = arrival.packet.time {
        write!(out, ", captured at {}.{:09}", time / SECOND, time % SECOND)?;
    }
    match arrival.why {
        Why::Time(moment) => write!(out, ": at {moment} by its time")?,
        Why::Later(moment) => write!(
            out,
            ": at {moment} by its time, and guessed to come before the next read of ICR with RXT0"
        )?,
        Why::Cause => write!(out, ": guessed, by a read of ICR with RXT0")?,
        Why::Asked => write!(out, ": where --at says")?,
        Why::Nothing => write!(out, ": guessed, since no read of ICR tells of it")?,
    }
    if !arrival.received {
        write_text(out, b"; the receiver is disabled here")?;
    }
    if is_unpadded(&arrival.packet) {
        write!(out, "; padded to {LEAST_FRAME} octets")?;
    }
    write_text(out, b"\n")
}
