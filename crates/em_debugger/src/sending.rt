//! When the frames were sent that are on the wire: by the times of lines, and by which line sent which frames.
ghost use Rattle.std.specs.Prelude.{◌≡◌, ◌<◌, ◌≤◌, IfOk, OnOk, OnErr, [], None, false, length, nat_lt, take, slice_set};
ghost use Rattle.em_debugger.specs.Sending.{KeepsFirst, StaysSent, course_at, course_of, first_of, first_sent, later};
ghost use Rattle.em_debugger.specs.Sending.{moment_of, passed, times_in, times_of};

use crate::debugger::Debugger;
use crate::marks::time_of;
use crate::place::{holds, line_here};
use std::alloc::{AllocError, Global};

/// How many nanoseconds a microsecond has.
const MICROSECOND: u64 = 1_000;

/// By line, the number of the first frame that it sent, if it sent any.
#[derive(Drop)]
pub(crate) struct Sent {
    firsts: Vec<Option<usize>>,
}

impl Sent {
    /// Before any line.
    pub(crate) fn new(alloc: Global) -> Sent
        ensures { result.firsts.items ≡ [] }
    {
        Sent {
            firsts: Vec::new(alloc),
        }
    }

    /// Makes a place beside the line of this number, from 1.
    fn make_place(&mut self, number: usize) -> Result<(), AllocError>
        ensures stay { StaysSent self.old.firsts.items self.new.firsts.items }
        ensures place { OnOk result (number ≤ length self.new.firsts.items) }
    {
        while self.firsts.len() < number {
            self.firsts.push(None)?;
        }
        Ok(())
    }

    /// Makes a place for a line before which so many frames were on the wire, and behind it so many; none where it sent no
    /// frame.
    pub(crate) fn make_ready(
        &mut self,
        number: usize,
        before: usize,
        behind: usize,
    ) -> Result<(), AllocError>
        ensures stay { StaysSent self.old.firsts.items self.new.firsts.items }
        ensures none { nat_lt before behind ≡ false → self.new.firsts.items ≡ self.old.firsts.items }
        ensures place { OnOk result (before < behind → number ≤ length self.new.firsts.items) }
    {
        if before < behind {
            self.make_place(number)
        } else {
            Ok(())
        }
    }

    /// Keeps which frames the line of this number sent, from 1.
    pub(crate) fn set(&mut self, number: usize, before: usize, behind: usize)
        requires some { 0 < number }
        requires place { before < behind → number ≤ length self.old.firsts.items }
        ensures { KeepsFirst number (first_sent before behind) self.old.firsts.items self.new.firsts.items }
    {
        if before < behind {
            self.firsts[number - 1] = Some(before);
        }
    }

    /// The number of the first frame that the line of this number sent, if it sent any.
    fn of(&self, number: usize) -> Option<usize>
        ensures { result ≡ first_of number self.now.firsts.items }
    {
        if number == 0 {
            return None;
        }
        match self.firsts.get(number - 1) {
            Some(first) => *first,
            None => None,
        }
    }

    /// Forgets what the lines behind so many sent.
    pub(crate) fn keep(&mut self, lines: usize)
        ensures { self.new.firsts.items ≡ take lines self.old.firsts.items }
    {
        self.firsts.truncate(lines);
    }
}

/// What is known behind some lines of when frames were sent.
#[derive(Drop)]
struct Clock {
    // the times of the first frames
    given: Vec<u64>,
    // that of all frames behind those
    rest: u64,
    // the latest time of a line
    latest: Option<u64>,
}

impl Clock {
    /// Before any line.
    fn new(alloc: Global) -> Clock
        ensures { course_of result ≡ course_at 0 [] [] }
    {
        Clock {
            given: Vec::new(alloc),
            rest: 0,
            latest: None,
        }
    }

    /// Passes the next line, with its number, the line as it stood if it has a time, and the first frame that it sent.
    fn pass(&mut self, line: usize, mark: &[u8], first: Option<usize>) -> Result<(), AllocError>
        ensures { OnOk result (course_of self.new ≡ passed line mark.now first (course_of self.old)) }
    {
        self.latest = later(time_of(mark), self.latest);
        match first {
            None => Ok(()),
            Some(first) => {
                self.given.resize(first, self.rest)?;
                self.rest = moment_of(self.latest, line);
                Ok(())
            }
        }
    }

    /// The times of so many frames.
    fn times(self, frames: usize) -> Result<Vec<u64>, AllocError>
        ensures times { IfOk result (λ times. times.items ≡ times_in frames (course_of self)) }
        ensures all { IfOk result (λ times. length times.items ≡ frames) }
    {
        let mut times = self.given;
        times.resize(frames, self.rest)?;
        Ok(times)
    }
}

/// The later of two times of lines: that of the later line, if it has one.
fn later(time: Option<u64>, before: Option<u64>) -> Option<u64>
    ensures { result ≡ later time before }
{
    match time {
        Some(time) => Some(time),
        None => before,
    }
}

/// When a line came: by the latest time up to it; without one its number counts as microseconds.
fn moment_of(latest: Option<u64>, line: usize) -> u64
    ensures { result ≡ moment_of latest line }
{
    match latest {
        Some(time) => time,
        None => (line as u64).saturating_mul(MICROSECOND),
    }
}

impl Debugger {
    /// When the frames were sent that are on the wire, each in nanoseconds.
    pub(crate) fn times_sent(&self) -> Result<Vec<u64>, AllocError>
        ensures times { IfOk result (λ times. times.items ≡ times_of self.now) }
        ensures all { IfOk result (λ times. length times.items ≡ length self.now.tape.session.machine.present.wire) }
    {
        holds(&self.tape);
        let mut clock = Clock::new(self.alloc);
        for before in 0..line_here(&self.tape) + 1 {
            let line = before + 1;
            clock.pass(line, self.marks.of(line), self.sent.of(line))?;
        }
        clock.times(self.tape.machine().wire_len())
    }
}
