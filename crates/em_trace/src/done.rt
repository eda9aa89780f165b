//! What was done, and what the script does not do.

use crate::arriving::{Arrival, Seen, Why};
use crate::counts::Counts;
use crate::ranges::Lines;
use crate::rings::Room;
use crate::text::plural;
use anyhow::Result;
use em_frames::is_unpadded;
use em_text::MOST_SCRIPT;
use std::alloc::{AllocError, Global};
use std::io::Write;

/// How a driver prints accesses that are read.
const WANTED: &str =
    "what a driver prints is read as `read 0xOFFSET 0xVALUE` or `write 0xOFFSET 0xVALUE`";

/// What was done, and what the script does not do.
#[derive(Drop)]
pub struct Done {
    alloc: Global,
    /// How many lines were accesses of the adapter's registers.
    pub accesses: u64,
    /// Those of other sizes than four octets.
    pub other_sizes: u64,
    /// Accesses of something else.
    pub elsewhere: u64,
    /// Reads for which the line of another one stands.
    pub polls: u64,
    /// Lines that could not be read.
    pub faults: u64,
    /// Lines that look like accesses, and have no form.
    pub unlike: u64,
    /// The lines that were asked for.
    lines: Lines,
    /// Lines before and behind those.
    pub before: u64,
    pub behind: u64,
    /// What was seen of the frames that were sent.
    pub seen: Option<Seen>,
    /// Frames that no read tells of.
    late_frames: u64,
    /// Those that arrive where the receiver is disabled.
    lost_frames: u64,
    /// Those that were padded.
    padded_frames: u64,
    /// Those that arrive outside of the lines that were asked for.
    pub other_frames: u64,
    /// How many octets the script has.
    pub octets: u64,
    /// How many of them are comments of accesses of something else.
    pub other_octets: u64,
    /// Those of registers that the model lacks.
    pub missing: Counts,
    /// The memory that the script wants, where it is not the usual.
    pub room: Option<Room>,
}

impl Done {
    /// Nothing was done yet.
    pub fn new(alloc: Global, lines: Lines) -> Result<Done, AllocError> {
        Ok(Done {
            alloc,
            accesses: 0,
            other_sizes: 0,
            elsewhere: 0,
            polls: 0,
            faults: 0,
            unlike: 0,
            lines,
            before: 0,
            behind: 0,
            seen: None,
            late_frames: 0,
            lost_frames: 0,
            padded_frames: 0,
            other_frames: 0,
            octets: 0,
            other_octets: 0,
            missing: Counts::new(alloc)?,
            room: None,
        })
    }

    /// The script wants this memory.
    pub fn want(&mut self, room: Option<Room>) {
        self.room = room;
    }

    /// Whether this line is asked for; one that is not is counted.
    pub fn passes(&mut self, line: u64) -> bool {
        if line < self.lines.from {
            self.before = self.before.saturating_add(1);
        } else if line > self.lines.to {
            self.behind = self.behind.saturating_add(1);
        }
        self.lines.has(line)
    }

    /// Counts a frame that arrives.
    pub fn count(&mut self, arrival: &Arrival<'_>) {
        if matches!(arrival.why, Why::Nothing) {
            self.late_frames = self.late_frames.saturating_add(1);
        }
        if !arrival.received {
            self.lost_frames = self.lost_frames.saturating_add(1);
        }
        if is_unpadded(&arrival.packet) {
            self.padded_frames = self.padded_frames.saturating_add(1);
        }
    }

    /// Whether there was an access, and each line that began as one was read.
    pub fn is_well(&self) -> bool {
        self.accesses > 0 && self.faults == 0
    }

    /// Writes what the script does not do, a line for each kind, and whether it is too long.
    pub fn write<W: Write>(&self, out: &mut W) -> Result<()> {
        if self.accesses == 0 {
            writeln!(out, "no line is an access of the adapter's registers")?;
        }
        self.missing.write(self.alloc, out)?;
        let sizes = "of other sizes than four octets";
        write_count(out, self.other_sizes, "access", "accesses", sizes)?;
        let other = "of something else than the adapter's registers";
        write_count(out, self.elsewhere, "access", "accesses", other)?;
        let polls =
            "for which the read before stands, since it gave the same; --keep-polls writes them";
        write_count(out, self.polls, "read", "reads", polls)?;
        write_count(out, self.faults, "line", "lines", "that cannot be read")?;
        let unlike = "like an access in none of the forms that are read";
        write_count(out, self.unlike, "line", "lines", unlike)?;
        if self.unlike > 0 {
            writeln!(out, "{WANTED}")?;
        }
        self.write_outside(out)?;
        self.write_frames(out)?;
        self.write_length(out)
    }

    /// Writes what lies outside of the lines that were asked for.
    fn write_outside<W: Write>(&self, out: &mut W) -> Result<()> {
        let Lines { from, to } = self.lines;
        if self.before > 0 {
            let lines = plural(self.before, "line", "lines");
            writeln!(out, "{} {lines} before line {from}, left out", self.before)?;
        }
        if self.behind > 0 {
            let lines = plural(self.behind, "line", "lines");
            writeln!(out, "{} {lines} behind line {to}, left out", self.behind)?;
        }
        let frames = "outside of these lines, left out";
        write_count(out, self.other_frames, "frame", "frames", frames)
    }

    /// Writes what the frames of the capture are, where something is to be said of them.
    fn write_frames<W: Write>(&self, out: &mut W) -> Result<()> {
        let Some(seen) = self.seen else {
            return Ok(());
        };
        let own = "of the adapter's own, which did not arrive";
        write_count(out, seen.own, "frame", "frames", own)?;
        if !seen.has_clock {
            write_no_clock(out, seen)?;
        }
        let padded = "of fewer than 60 octets, padded to 60";
        write_count(out, self.padded_frames, "frame", "frames", padded)?;
        let lost = "where the receiver is disabled";
        write_count(out, self.lost_frames, "frame", "frames", lost)?;
        let late = "that no read of ICR tells of, for want of a place in the log";
        write_count(out, self.late_frames, "frame", "frames", late)
    }

    /// Writes how long the script is, where it is too long.
    fn write_length<W: Write>(&self, out: &mut W) -> Result<()> {
        if self.octets <= MOST_SCRIPT as u64 {
            return Ok(());
        }
        let octets = self.octets;
        write!(
            out,
            "the script has {octets} octets, and em_bench plays {MOST_SCRIPT}"
        )?;
        if self.other_octets > 0 {
            write!(out, "; --skip-others leaves {} out", self.other_octets)?;
        }
        writeln!(out, "")?;
        Ok(())
    }
}

/// Writes how many there were, if there was one.
fn write_count<W: Write>(out: &mut W, count: u64, one: &str, many: &str, what: &str) -> Result<()> {
    if count > 0 {
        writeln!(out, "{count} {} {what}", plural(count, one, many))?;
    }
    Ok(())
}

/// Writes why the times of log and capture could not be joined.
fn write_no_clock<W: Write>(out: &mut W, seen: Seen) -> Result<()> {
    let Seen {
        own,
        sendings,
        descriptors,
        ..
    } = seen;
    let give = plural(sendings, "write of TDT gives", "writes of TDT give");
    let them = plural(descriptors, "descriptor", "descriptors");
    let are = plural(own, "frame is", "frames are");
    write!(out, "log and capture have no clock in common: ")?;
    write!(out, "{sendings} {give} {descriptors} {them}, ")?;
    writeln!(out, "and {own} {are} the adapter's own")?;
    Ok(())
}
