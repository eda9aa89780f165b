//! A log becomes a script, line by line.

use crate::clock::{Moment, moment_of};
use crate::done::Done;
use crate::frames::Frames;
use crate::lines::{MOST_KEPT, read_line};
use crate::missing::missing_name;
use crate::poll::Poll;
use crate::ranges::Lines;
use crate::rings::{Rings, Room};
use crate::shown::{Address, value_of};
use crate::text::{
    write_access, write_kept, write_memory, write_missing, write_other_size, write_poll,
    write_text, write_unlike,
};
use anyhow::{Context, Result};
use em_log::{Entry, Form, Log, RegisterAccess, Way, Width, looks_like_access, memory_written};
use em_regs::{Profile, Reg};
use em_text::octets_into;
use std::alloc::{AllocError, Global};
use std::io::{BufRead, Write};

/// What a link that is up from the start leaves: it is up, and no cause is raised by it.
const LINK_UP: &[u8] = b"link up\nw 000C0 00000004\n";

/// Whether the link is up where the log begins.
#[derive(Clone, Copy)]
pub enum Link {
    Up,
    Down,
}

/// What the command line asks for.
#[derive(Clone, Copy)]
pub struct Wanted<'a> {
    /// What the log looks like; without it the log says so.
    pub form: Option<Form>,
    /// What QEMU calls the adapter's registers.
    pub region: &'a str,
    /// Where the first register lies; without it the log says so.
    pub base: Option<u64>,
    /// The lines that are translated.
    pub lines: Lines,
    /// The adapter's address; without it the log says so.
    pub address: Option<Address>,
    /// The line before which all frames arrive.
    pub at: Option<u64>,
    /// The memory that the script is to have; without it what the log's rings want.
    pub memory: Option<Room>,
    /// Of which profile the script's machine is to be.
    pub profile: Profile,
    pub link: Link,
    /// Whether accesses of something else are left out of the script.
    pub skips_others: bool,
    /// Whether each read of a poll becomes a line.
    pub keeps_polls: bool,
}

impl<'a> Wanted<'a> {
    /// A log as it is asked for, of which nothing is read yet.
    pub fn log(&self) -> Log<'a> {
        Log::new(self.form, self.region.as_bytes(), self.base)
    }
}

/// A line of a log that is an access.
#[derive(Clone, Copy)]
struct Logged {
    number: u64,
    moment: Option<Moment>,
    access: RegisterAccess,
}

/// A script that is being written.
#[derive(Drop)]
struct Script<'a> {
    frames: Frames<'a>,
    done: Done,
    /// Lines that are not written yet.
    lines: Vec<u8>,
    /// The octets that a line says were written into memory.
    written: Vec<u8>,
    /// How the script begins, if it has not begun.
    begins: Option<Link>,
    /// Which registers it may access.
    profile: Profile,
    skips_others: bool,
    keeps_polls: bool,
    /// The read that was written last, if more such reads would be a poll.
    poll: Option<Poll>,
    rings: Rings,
}

/// Writes the script of a log, and says on standard error which lines cannot be read.
pub fn translate<E: Eprint + AllocGlobal, R: BufRead, W: Write>(
    rt: &E,
    wanted: &Wanted<'_>,
    frames: Frames<'_>,
    reader: &mut R,
    out: &mut W,
) -> Result<Done> {
    let mut script = Script::new(rt.alloc(), wanted, frames)?;
    script.done.other_frames = script.frames.pass_over(wanted.lines.from);
    script.take_lines(rt, wanted.log(), reader, out)?;
    let room = script.rings.room();
    script.done.want(room);
    Ok(script.done)
}

impl<'a> Script<'a> {
    /// Nothing is written yet.
    fn new(
        alloc: Global,
        wanted: &Wanted<'_>,
        frames: Frames<'a>,
    ) -> Result<Script<'a>, AllocError> {
        Ok(Script {
            frames,
            done: Done::new(alloc, wanted.lines)?,
            lines: Vec::new(alloc),
            written: Vec::new(alloc),
            begins: Some(wanted.link),
            profile: wanted.profile,
            skips_others: wanted.skips_others,
            keeps_polls: wanted.keeps_polls,
            poll: None,
            rings: Rings::NONE,
        })
    }

    /// Writes the script of all lines that the reader has.
    fn take_lines<E: Eprint + AllocGlobal, R: BufRead, W: Write>(
        &mut self,
        rt: &E,
        log: Log<'_>,
        reader: &mut R,
        out: &mut W,
    ) -> Result<()> {
        let mut log = log;
        let mut line = Vec::new(rt.alloc());
        for number in 1..u64::MAX {
            if !self.take_line(rt, &mut log, number, reader, &mut line, out)? {
                break;
            }
        }
        self.end(out)
    }

    /// Reads the next line, if there is one, and writes what becomes of it.
    fn take_line<E: Eprint + AllocGlobal, R: BufRead, W: Write>(
        &mut self,
        rt: &E,
        log: &mut Log<'_>,
        number: u64,
        reader: &mut R,
        line: &mut Vec<u8>,
        out: &mut W,
    ) -> Result<bool> {
        if !read_line(reader, line).context("the log cannot be read")? {
            return Ok(false);
        }
        let text = line.as_slice();
        let entry = whole(log.read(text), text);
        if self.done.passes(number) {
            self.arrive(number, out)?;
            self.tell(rt, number, text, entry)?;
            let moment = moment_of(log.form(), text);
            self.take(number, moment, text, entry)?;
            self.pass(out)?;
        }
        Ok(true)
    }

    /// Says on standard error what is wrong with a line, if something is.
    fn tell<E: Eprint + AllocGlobal>(
        &mut self,
        rt: &E,
        number: u64,
        text: &[u8],
        entry: Entry,
    ) -> Result<()> {
        match entry {
            Entry::Fault => {
                let _ = eprintln!(rt; "line {number} cannot be read");
                Ok(())
            }
            Entry::Nothing if looks_like_access(text) => self.tell_unlike(rt, number, text),
            _ => Ok(()),
        }
    }

    /// Counts a line that looks like an access and has no form, and tells the first of them.
    fn tell_unlike<E: Eprint + AllocGlobal>(
        &mut self,
        rt: &E,
        number: u64,
        text: &[u8],
    ) -> Result<()> {
        if self.done.unlike == 0 {
            let mut told = Vec::new(rt.alloc());
            write_unlike(&mut told, number, text)?;
            if let Ok(told) = str::from_utf8(told.as_slice()) {
                let _ = eprint!(rt; "{told}");
            }
        }
        self.done.unlike = self.done.unlike.saturating_add(1);
        Ok(())
    }

    /// Counts a line of the log, and gives it its lines of the script.
    fn take(
        &mut self,
        number: u64,
        moment: Option<Moment>,
        text: &[u8],
        entry: Entry,
    ) -> Result<()> {
        let done = &mut self.done;
        match entry {
            Entry::Access(access) => {
                done.accesses = done.accesses.saturating_add(1);
                self.take_access(Logged {
                    number,
                    moment,
                    access,
                })
            }
            Entry::Elsewhere => {
                done.elsewhere = done.elsewhere.saturating_add(1);
                if self.skips_others {
                    return Ok(());
                }
                self.end_poll()?;
                write_kept(&mut self.lines, number, text)?;
                let octets = self.lines.len() as u64;
                self.done.other_octets = self.done.other_octets.saturating_add(octets);
                Ok(())
            }
            Entry::Memory => self.take_memory(text),
            Entry::Nothing => Ok(()),
            Entry::Fault => {
                done.faults = done.faults.saturating_add(1);
                self.end_poll()?;
                write_kept(&mut self.lines, number, text)
            }
        }
    }

    /// The line of an access, or nothing where a line before it stands for it.
    fn take_access(&mut self, logged: Logged) -> Result<()> {
        self.begin()?;
        self.count_access(logged.access);
        if let Some(poll) = &mut self.poll {
            if poll.takes(logged.number, logged.moment, logged.access) {
                self.done.polls = self.done.polls.saturating_add(1);
                return Ok(());
            }
        }
        self.end_poll()?;
        if !self.keeps_polls {
            self.poll = Poll::begun_by(logged.access);
        }
        self.write_line(logged)
    }

    /// The lines of what the driver wrote into guest memory.
    fn take_memory(&mut self, text: &[u8]) -> Result<()> {
        let Some(write) = memory_written(text) else {
            return Ok(());
        };
        self.begin()?;
        self.end_poll()?;
        if !octets_into(&mut self.written, write.digits)? {
            return Ok(());
        }
        let octets = self.written.as_slice();
        self.rings.cover(write.address, octets.len() as u64);
        write_memory(&mut self.lines, write.address, octets)
    }

    /// Counts an access that the model can't have.
    fn count_access(&mut self, access: RegisterAccess) {
        if access.width != Width::Four {
            self.done.other_sizes = self.done.other_sizes.saturating_add(1);
        } else if Reg::of_offset_in(self.profile, access.offset).is_none() {
            self.done.missing.add(access.offset);
        }
    }

    /// Writes the line of an access, or a comment where the model can't have it.
    fn write_line(&mut self, logged: Logged) -> Result<()> {
        let Logged {
            number,
            moment,
            access,
        } = logged;
        if access.width != Width::Four {
            return write_other_size(&mut self.lines, number, access, moment);
        }
        let Some(reg) = Reg::of_offset_in(self.profile, access.offset) else {
            let name = missing_name(access.offset).unwrap_or("no register");
            return write_missing(&mut self.lines, number, access, name, moment);
        };
        self.rings.pass(reg, access);
        let value = value_of(access);
        if let (Reg::Rctl, Way::Write, Some(rctl)) = (reg, access.way, value) {
            self.frames.set_rctl(rctl);
        }
        write_access(&mut self.lines, access.way, access.offset, value, moment)
    }

    /// Says how many reads the line that was written last stands for, if it is more than its own.
    fn end_poll(&mut self) -> Result<()> {
        match self.poll.take() {
            Some(poll) if poll.more > 0 => {
                write_poll(&mut self.lines, poll.more, poll.last, poll.moment)
            }
            _ => Ok(()),
        }
    }

    /// Writes the lines of the frames that arrive before this line.
    fn arrive<W: Write>(&mut self, number: u64, out: &mut W) -> Result<()> {
        for count in 0..self.frames.left() {
            if !self.frames.is_due(number) {
                break;
            }
            self.write_frame(out)?;
        }
        Ok(())
    }

    /// Writes what is left behind the log's last line.
    fn end<W: Write>(&mut self, out: &mut W) -> Result<()> {
        if self.done.accesses > 0 && self.done.behind == 0 {
            for count in 0..self.frames.left() {
                self.write_frame(out)?;
            }
        }
        self.done.other_frames = self.done.other_frames.saturating_add(self.frames.left());
        self.end_poll()?;
        self.pass(out)
    }

    /// Writes the lines of the next frame, and counts it.
    fn write_frame<W: Write>(&mut self, out: &mut W) -> Result<()> {
        self.begin()?;
        self.end_poll()?;
        if let Some(arrival) = self.frames.write_next(&mut self.lines)? {
            self.done.count(&arrival);
        }
        self.pass(out)
    }

    /// How the script begins, if it has not begun.
    fn begin(&mut self) -> Result<()> {
        if matches!(self.begins.take(), Some(Link::Up)) {
            write_text(&mut self.lines, LINK_UP)?;
        }
        Ok(())
    }

    /// Writes the lines that are not written yet.
    fn pass<W: Write>(&mut self, out: &mut W) -> Result<()> {
        let lines = self.lines.as_slice();
        self.done.octets = self.done.octets.saturating_add(lines.len() as u64);
        write_text(out, lines)?;
        self.lines.clear();
        Ok(())
    }
}

/// What a line is, of which no more than [`MOST_KEPT`] octets were kept: one that was cut has not all that was written.
fn whole(entry: Entry, text: &[u8]) -> Entry {
    if matches!(entry, Entry::Memory) && text.len() >= MOST_KEPT {
        Entry::Fault
    } else {
        entry
    }
}
