//! Playing a script, and writing its record as it goes.

use crate::explained::{reason, write_warnings};
use crate::fault::RecordFault;
use crate::held::{Held, Told, has_stored, write_one};
use crate::line::{difference, kind_of, played, takes_back, time_of};
use em_journal::{Settings, SettingsRefusal};
use em_json::{write_number, write_string, write_strings};
use em_line::{Line, Parts, parts_of};
use em_named::Did;
use em_recording::{newest_frame, record_of, write_settings, write_start};
use em_regs::Profile;
use em_script::{BenchFault, Outcome};
use em_tape::Tape;
use em_text::{WriteFailed, next_line, write_pieces, write_whole};
use em_watch::what;
use std::alloc::{AllocError, Global};
use std::io::Write;

/// What a record begins with: its format and the version of that.
const FORMAT: &[u8] = b"{\"format\":\"bunjelav recording\",\"version\":3,";

/// A line with more events than these is taken back and performed again.
const FEW: usize = 64;

/// So many events are taken back at most, so that all lines so far are performed again once for them.
const MOST_HELD: usize = 8_192;

/// A machine on which a script is to be played.
#[derive(Drop)]
pub struct Recorder {
    alloc: Global,
    settings: Settings,
    tape: Tape,
    /// The answer of the line that was played last.
    answer: Vec<u8>,
    /// How many events were recorded, those that were taken back among them.
    events: u64,
    /// Whether a line was bad.
    is_bad: bool,
    /// The newest lines, from one on whose events are told by steps back; and how many events they performed.
    held: Vec<Held>,
    held_events: usize,
}

/// The first line of a text.
fn first_of(text: &[u8]) -> &[u8] {
    if text.is_empty() {
        return text;
    }
    next_line(text).0
}

/// Writes a field that holds a text, behind its name, where there is a text.
fn write_field<W: Write>(writer: &mut W, name: &[u8], text: &[u8]) -> Result<(), WriteFailed> {
    if text.is_empty() {
        return Ok(());
    }
    write_whole(writer, name)?;
    write_string(writer, text)
}

impl Recorder {
    /// A recorder over a new machine.
    pub fn new(alloc: Global, settings: Settings) -> Result<Recorder, SettingsRefusal> {
        match Tape::new(alloc, settings) {
            Ok(tape) => Ok(Recorder {
                alloc,
                settings,
                tape,
                answer: Vec::new(alloc),
                events: 0,
                is_bad: false,
                held: Vec::new(alloc),
                held_events: 0,
            }),
            Err(refusal) => Err(refusal),
        }
    }

    /// Of which profile the machine is.
    pub fn profile(&self) -> Profile {
        self.settings.profile
    }

    /// Plays a script, and writes the record of the run. Tells whether a line was bad.
    pub fn record<W: Write>(&mut self, writer: &mut W, script: &[u8]) -> Result<bool, RecordFault> {
        write_whole(writer, FORMAT)?;
        write_settings(writer, &self.settings)?;
        write_start(writer, self.tape.machine())?;
        self.write_lines(writer, script)?;
        self.write_end(writer)?;
        Ok(self.is_bad)
    }

    /// Plays each line, and writes what it did.
    fn write_lines<W: Write>(&mut self, writer: &mut W, script: &[u8]) -> Result<(), RecordFault> {
        let mut rest = script;
        while !rest.is_empty() {
            let (line, behind) = next_line(rest);
            self.write_line(writer, line)?;
            rest = behind;
        }
        self.write_all_held(writer)
    }

    /// Plays a line, and writes what it did, or holds that.
    fn write_line<W: Write>(&mut self, writer: &mut W, text: &[u8]) -> Result<(), RecordFault> {
        if !self.held.is_empty() && takes_back(self.alloc, self.settings.profile, text)? {
            self.write_all_held(writer)?;
        }
        let (front, count) = self.play(text)?;
        if self.held_events.saturating_add(count) > self.tape.machine().can_go_back() {
            let before = self.tape.len().saturating_sub(1);
            self.write_held(writer, before)?;
        }
        let number = self.events.saturating_add(1);
        self.events = self.events.saturating_add(count as u64);
        if self.held.is_empty() && self.is_told_at_once(count) {
            write_whole(writer, front.as_slice())?;
            return self.write_events(writer, number, count);
        }
        self.hold(front, number, count)?;
        if self.holds_enough() {
            self.write_all_held(writer)?;
        }
        Ok(())
    }

    /// Plays a line, and gives its record, and how many events it performed, whose records follow.
    fn play(&mut self, text: &[u8]) -> Result<(Vec<u8>, usize), RecordFault> {
        let parts = parts_of(text);
        let said = played(self.alloc, self.settings.profile, parts.said)?;
        let line = Line::read(self.alloc, said.as_slice())?;
        let outcome = self.perform(said.as_slice())?;
        let count = self.performed()?;
        let mut front = Vec::new(self.alloc);
        // A vector fails only where memory is refused.
        match self.write_front(&mut front, text, &line, outcome, count) {
            Ok(()) => Ok((front, count)),
            Err(_) => Err(RecordFault::Bench(BenchFault::Memory)),
        }
    }

    /// Plays what a line says, and keeps its answer.
    fn perform(&mut self, said: &[u8]) -> Result<Outcome, RecordFault> {
        self.tape.add(said)?;
        self.answer.clear();
        match self.tape.perform_next(&mut self.answer) {
            Ok(outcome) => Ok(outcome.unwrap_or(Outcome::Silent)),
            // A vector fails only where memory is refused.
            Err(_) => Err(RecordFault::Bench(BenchFault::Memory)),
        }
    }

    /// How many events the last line performed, which the journal has to hold.
    fn performed(&self) -> Result<usize, RecordFault> {
        match self.tape.performed_by(self.tape.len()) {
            Some(Did::Performed(count)) => {
                if count > self.tape.machine().can_go_back() as u64 {
                    return Err(RecordFault::JournalTooSmall(self.tape.len()));
                }
                Ok(count as usize)
            }
            Some(Did::TookBack(_)) => Ok(0),
            None => Err(RecordFault::Bench(BenchFault::Memory)),
        }
    }

    /// Writes the record of the last line, which performed so many events: their records follow it.
    fn write_front<W: Write>(
        &mut self,
        writer: &mut W,
        text: &[u8],
        line: &Line<'_>,
        outcome: Outcome,
        count: usize,
    ) -> Result<(), RecordFault> {
        write_number(writer, b"{\"line\":", self.tape.len() as u64)?;
        write_field(writer, b",\"text\":", text)?;
        if let Some(kind) = kind_of(&line.says) {
            write_pieces(writer, &[b",\"kind\":\"", kind, b"\""])?;
        }
        self.write_answer(writer)?;
        self.write_outcome(writer, outcome)?;
        self.write_told(writer, line, outcome)?;
        self.write_behind(writer, &parts_of(text), line)?;
        if let Some(Did::TookBack(taken)) = self.tape.performed_by(self.tape.len()) {
            write_number(writer, b",\"back\":", u64::from(taken))?;
        }
        if count > 0 {
            write_number(writer, b",\"events\":", count as u64)?;
        }
        write_whole(writer, b"}\n")?;
        Ok(())
    }

    /// Writes the answer to the last line, if there is one.
    fn write_answer<W: Write>(&self, writer: &mut W) -> Result<(), WriteFailed> {
        if self.answer.is_empty() {
            return Ok(());
        }
        write_whole(writer, b",\"answer\":")?;
        write_strings(writer, self.answer.as_slice())
    }

    /// Writes why the event of the last line did nothing, if it did nothing, and the warnings that the line has.
    fn write_told<W: Write>(
        &self,
        writer: &mut W,
        line: &Line<'_>,
        outcome: Outcome,
    ) -> Result<(), RecordFault> {
        let machine = self.tape.machine();
        let came = outcome.event();
        let why = reason(self.alloc, machine, line.event(), came)?;
        write_field(writer, b",\"why\":", why.as_slice())?;
        write_warnings(self.alloc, writer, machine, line.event(), came)
    }

    /// Writes what stands behind what a line says: the answer that it expects, how its answer differs from that, where
    /// it comes from, and when it was.
    fn write_behind<W: Write>(
        &self,
        writer: &mut W,
        parts: &Parts<'_>,
        line: &Line<'_>,
    ) -> Result<(), RecordFault> {
        let expected = parts.expected.unwrap_or_default();
        let differs = difference(self.alloc, line, expected, self.answer.as_slice())?;
        write_field(writer, b",\"expected\":", expected)?;
        write_field(writer, b",\"differs\":", first_of(differs.as_slice()))?;
        write_field(writer, b",\"source\":", parts.source.unwrap_or_default())?;
        if let Some(time) = time_of(parts) {
            write_number(writer, b",\"time\":", time)?;
        }
        Ok(())
    }

    /// Writes how a line came out that was refused or bad.
    fn write_outcome<W: Write>(
        &mut self,
        writer: &mut W,
        outcome: Outcome,
    ) -> Result<(), WriteFailed> {
        match outcome {
            Outcome::Silent | Outcome::Done | Outcome::Answered(_) => Ok(()),
            Outcome::Refused(refused) => {
                write_whole(writer, b",\"refused\":")?;
                write_string(writer, refused.name().as_bytes())
            }
            Outcome::Bad => {
                self.is_bad = true;
                write_whole(writer, b",\"bad\":true")
            }
        }
    }

    /// Whether so many events of the last line are told from where the machine is: what a record of the journal tells has
    /// to be followed back over all newer ones, and a frame that was stored is read right behind its event.
    fn is_told_at_once(&self, count: usize) -> bool {
        count <= 1 || (count <= FEW && !self.have_stored(count))
    }

    /// Whether one of so many newest events stored a frame.
    fn have_stored(&self, count: usize) -> bool {
        let machine = self.tape.machine();
        let most = count.min(machine.can_go_back());
        (1..=most).any(|back| has_stored(what(machine, back).frames()))
    }

    /// Writes the newest events, of which the first has a number, from where the machine is. At most the only one stored
    /// a frame.
    fn write_events<W: Write>(
        &mut self,
        writer: &mut W,
        number: u64,
        count: usize,
    ) -> Result<(), RecordFault> {
        for done in 0..count {
            let one = self.told(count - done)?;
            write_one(writer, number, done, &one)?;
        }
        Ok(())
    }

    /// Holds the last line, with its events where they are told at once.
    fn hold(&mut self, front: Vec<u8>, number: u64, count: usize) -> Result<(), RecordFault> {
        let mut told = Vec::new(self.alloc);
        if self.is_told_at_once(count) {
            for back in 0..count {
                let one = self.told(back.saturating_add(1))?;
                told.push(one).map_err(AllocError::from)?;
            }
        }
        self.held
            .push(Held::new(front, number, count, told))
            .map_err(AllocError::from)?;
        self.held_events = self.held_events.saturating_add(count);
        Ok(())
    }

    /// Whether so many events are held that they are to be told now: before the journal drops one, in most cases.
    fn holds_enough(&self) -> bool {
        let most = self.tape.machine().can_go_back();
        self.held_events >= MOST_HELD || self.held_events >= most / 2
    }

    /// Writes the lines that are held up to the last one that was played.
    fn write_all_held<W: Write>(&mut self, writer: &mut W) -> Result<(), RecordFault> {
        let last = self.tape.len();
        self.write_held(writer, last)
    }

    /// Writes the lines that are held, of which this is the last one. Their events are taken back one by one, and told as
    /// far as they were not; all lines are then performed again.
    fn write_held<W: Write>(&mut self, writer: &mut W, line: usize) -> Result<(), RecordFault> {
        if self.held.is_empty() {
            return Ok(());
        }
        self.tape.to_line(line)?;
        let mut all = Vec::new(self.alloc);
        for _ in 0..self.held.len() {
            if let Some(mut one) = self.held.pop() {
                self.tell_back(&mut one)?;
                all.push(one).map_err(AllocError::from)?;
            }
        }
        self.held_events = 0;
        let last = self.tape.len();
        self.tape.to_line(last)?;
        for one in all.as_slice().iter().rev() {
            one.write(writer)?;
        }
        Ok(())
    }

    /// Takes the events of a line back, behind which the machine is, and tells those that were not told.
    fn tell_back(&mut self, line: &mut Held) -> Result<(), RecordFault> {
        if line.is_told() {
            self.tape.back(line.count);
            return Ok(());
        }
        for _ in 0..line.count {
            let one = self.told(1)?;
            line.tell(one)?;
            self.tape.back(1);
        }
        Ok(())
    }

    /// What the event was and changed before which so many steps back lead; the newest at 1 with the frame that it stored.
    fn told(&self, back: usize) -> Result<Told, RecordFault> {
        let machine = self.tape.machine();
        if back == 0 || back > machine.can_go_back() {
            return Err(RecordFault::JournalTooSmall(self.tape.len()));
        }
        let Some(note) = self.tape.note_back(back - 1) else {
            return Err(RecordFault::JournalTooSmall(self.tape.len()));
        };
        let recorded = record_of(self.alloc, machine, back)?;
        let stored = match recorded.frames {
            Some(step) if back == 1 && step.after > step.before => newest_frame(
                self.alloc, machine,
            )?,
            _ => None,
        };
        Ok(Told {
            note,
            recorded,
            stored,
        })
    }

    /// Writes how many events stand, and how many lines were played.
    fn write_end<W: Write>(&self, writer: &mut W) -> Result<(), WriteFailed> {
        write_number(writer, b"{\"end\":{\"events\":", self.tape.behind(0) as u64)?;
        write_number(writer, b",\"lines\":", self.tape.len() as u64)?;
        write_pieces(writer, &[b"}}\n"])
    }
}
