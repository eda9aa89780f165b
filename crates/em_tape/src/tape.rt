//! A debugging session with a place in it.
ghost use Rattle.std.specs.Prelude.{◌≡◌, ◌⊎◌, ◌&&◌, ℕ, ◌+◌, ◌-◌, ◌<◌, ◌≤◌, ◌↔◌, ◌∷◌, ◌++◌, [], List, insert, nat_eq, nat_lt, length, take, drop, min, slice_get};
ghost use Rattle.std.specs.Prelude.{IfOk, IfErr, OnOk, OnErr, IfSome, IsErrOf, IsNone, IsTrue, Ok, None, Some, false};
ghost use Rattle.std.specs.Option.{option_map};
ghost use Rattle.em_journal.specs.Settings.{new_machine, IsRefusedAs};
ghost use Rattle.em_journal.specs.View.{states};
ghost use Rattle.em_trail.specs.Trail.{TellsAt};
ghost use Rattle.em_script.specs.Session.{bare};
ghost use Rattle.em_named.specs.Names.{names};
ghost use Rattle.em_named.specs.Numbers.{end_of, line_of, name_of};
ghost use Rattle.em_line.specs.Grammar.{parsed_line};
ghost use Rattle.em_tape.specs.Kind.{LeavesDriver, SaysOfDriver};
ghost use Rattle.em_tape.specs.Tape.{behind, empty_tape, event_at, event_of, line_at, line_here, reached, standing, taken_back};
ghost use Rattle.em_tape.specs.Tape.{IsNamed, IsNear, IsOutOfReach, IsShort, IsTape};
ghost use Rattle.em_tape.specs.Moves.{IsCut, IsCutPlace, IsPartlyCut, Leaves, Plays, TakesBack, TakesFewerBack, TakesNext};

use crate::again::go_along;
use crate::did::note;
use crate::kind::{leaves_driver, takes_back};
use crate::known::{Known, keep};
use crate::lines::{back_line, push_line, put_line, text_at};
use crate::playing::{Left, opening, play, put, replayed, take};
use crate::text::Text;
use em_journal::{Machine, Settings, SettingsRefusal};
use em_line::MOST_BACK;
use em_named::{
    Did, End, Name, Place, above, end_behind, end_of, name_at, name_of, performed_by, place_of,
};
use em_script::{BenchFault, Outcome, Player, Session};
use em_text::WriteFailed;
use em_trail::{Note, Traced};
use std::alloc::Global;
use std::io::Write;
use std::marker::Model;

/// A line has fewer octets.
pub const MOST_OCTETS: usize = 0xFFFF_FFFF;

/// The most lines of a tape: as many as can perform no more events than 64 bits count.
pub const MOST_LINES: usize = 0x3FFF_FFFF;

/// The lines of a session, and a place in it: so many lines stand performed, and some of their newest events are
/// taken back.
///
/// Lines may lie ahead of the place: those that were performed already, and behind them such as were not yet.
#[derive(Drop)]
pub struct Tape {
    alloc: Global,
    settings: Settings,
    player: Player,
    session: Session<Traced>,
    lines: Vec<Text>,
    // what each line did with events that was performed so far
    did: Vec<Did>,
    // whether the answer of each of them could be written
    answered: bool,
    // how many lines stand performed
    whole: usize,
    // how many events they performed
    events: u64,
    // how many of their newest events are taken back
    back: usize,
    // what is known of the lines, the whole ones and perhaps some behind them
    known: Vec<Known>,
}

impl Model for Tape {
    ghost use Rattle.em_tape.specs.Texts.{texts};
    ghost use Rattle.em_journal.specs.Settings.{new_machine};
    ghost use Rattle.em_script.specs.Session.{bare};
    ghost use Rattle.em_tape.specs.Tape.{Tape, tape_code};
    ghost use Rattle.em_tape.specs.Holds.{Holds};

    ghost Value = { Tape };

    ghost coded = { tape_code };

    ghost view = { λ t. record {
      first = bare (new_machine t.settings);
      lines = texts t.lines.items;
      did = t.did.items;
      answered = t.answered;
      whole = t.whole;
      back = t.back;
      session = t.session;
    } };

    ghost invariant = { λ t.
        Holds (bare (new_machine t.settings)) (texts t.lines.items) t.did.items t.answered t.known.items t.whole t.events
        t.back t.session };
}

impl Tape {
    /// A tape without a line, over a new machine.
    pub fn new(alloc: Global, settings: Settings) -> Result<Tape, SettingsRefusal>
        ensures ok { IfOk result (λ tape. tape ≡ empty_tape (bare (new_machine settings))) }
        ensures err { IfErr result (IsRefusedAs settings) }
    {
        match opening(alloc, settings) {
            Ok(session) => Ok(Tape {
                alloc,
                settings,
                player: Player::new(alloc),
                session,
                lines: Vec::new(alloc),
                did: Vec::new(alloc),
                answered: true,
                whole: 0,
                events: 0,
                back: 0,
                known: Vec::new(alloc),
            }),
            Err(refusal) => Err(refusal),
        }
    }

    /// Adds a line behind the last one. It is not performed yet.
    ///
    /// Refused as `TooLarge` where the line is too long or there are too many lines, and as `Memory`.
    pub fn add(&mut self, line: &[u8]) -> Result<(), BenchFault>
        ensures ok { OnOk result (self.new ≡ record self.old { lines = self.old.lines ++ line.now ∷ [] }) }
        ensures large { IsErrOf result BenchFault.TooLarge
            ↔ ((MOST_OCTETS ≤ length line.now) ⊎ (MOST_LINES ≤ length self.old.lines)) }
        ensures only { IfErr result (λ fault. (fault ≡ BenchFault.TooLarge) ⊎ (fault ≡ BenchFault.Memory)) }
        ensures err { OnErr result (self.new ≡ self.old) }
    {
        if line.len() >= MOST_OCTETS || self.lines.len() >= MOST_LINES {
            return Err(BenchFault::TooLarge);
        }
        match push_line(self.alloc, &mut self.lines, line) {
            Ok(()) => Ok(()),
            Err(_) => Err(BenchFault::Memory),
        }
    }

    /// Puts a line right behind those that stand whole, before those that lie ahead, none of which was performed yet. It
    /// is not performed either.
    ///
    /// Refused as [`add`](Tape::add) is.
    pub fn put_next(&mut self, line: &[u8]) -> Result<(), BenchFault>
        requires { length self.old.did ≤ self.old.whole }
        ensures ok { OnOk result (self.new ≡ record self.old {
          lines = insert self.old.lines self.old.whole line.now;
        }) }
        ensures large { IsErrOf result BenchFault.TooLarge
            ↔ ((MOST_OCTETS ≤ length line.now) ⊎ (MOST_LINES ≤ length self.old.lines)) }
        ensures only { IfErr result (λ fault. (fault ≡ BenchFault.TooLarge) ⊎ (fault ≡ BenchFault.Memory)) }
        ensures err { OnErr result (self.new ≡ self.old) }
    {
        if line.len() >= MOST_OCTETS || self.lines.len() >= MOST_LINES {
            return Err(BenchFault::TooLarge);
        }
        self.known.truncate(self.whole);
        match put_line(self.alloc, &mut self.lines, self.whole, line) {
            Ok(()) => Ok(()),
            Err(_) => Err(BenchFault::Memory),
        }
    }

    /// Performs the next line whole, and writes its answer as `em_bench` does; none where no line lies ahead.
    ///
    /// Where events of the lines so far are taken back, they are performed again first. It fails as `Memory` where
    /// memory is refused before the line is performed: then the place stays, or is whole. It fails as `Write` where
    /// the writer fails: what the line did stands.
    pub fn perform_next<W: Write>(&mut self, writer: &mut W) -> Result<Option<Outcome>, BenchFault>
        ensures ok { IfOk result (λ played. IfSome played (λ outcome.
            Plays self.old self.new (W.contents writer.old) (W.contents writer.new) (Ok outcome))) }
        ensures none { result ≡ Ok None → (self.new ≡ self.old) × (length self.old.lines ≤ self.old.whole)
            × (W.contents writer.new ≡ W.contents writer.old) }
        ensures write { IsErrOf result BenchFault.Write → (failed : WriteFailed)
            × Plays self.old self.new (W.contents writer.old) (W.contents writer.new) (Err failed) }
        ensures memory { IsErrOf result BenchFault.Memory
            → Leaves self.old self.new × (W.contents writer.new ≡ W.contents writer.old) }
        ensures only { IfErr result (λ fault. (fault ≡ BenchFault.Write) ⊎ (fault ≡ BenchFault.Memory)) }
    {
        if self.whole >= self.lines.len() {
            return Ok(None);
        }
        self.be_whole()?;
        match self.play_next(writer) {
            Some(Ok(outcome)) => Ok(Some(outcome)),
            Some(Err(WriteFailed)) => Err(BenchFault::Write),
            None => Err(BenchFault::Memory),
        }
    }

    /// Performs events of the whole lines again that are taken back.
    fn be_whole(&mut self) -> Result<(), BenchFault>
        ensures ok { OnOk result (self.new ≡ record self.old { back = 0; session = self.new.session }) }
        ensures here { self.old.back ≡ 0 → self.new ≡ self.old }
        ensures err { OnErr result (self.new ≡ self.old) }
        ensures only { IfErr result (λ fault. fault ≡ BenchFault.Memory) }
    {
        self.be_at(self.whole)
    }

    /// Goes to where so many lines stand whole. A place that is whole already is there.
    fn be_at(&mut self, line: usize) -> Result<(), BenchFault>
        requires known { line ≤ length self.old.did }
        requires there { self.old.back ≡ 0 → line ≡ self.old.whole }
        ensures ok { OnOk result (self.new ≡ record self.old {
          whole = line;
          back = 0;
          session = self.new.session;
        }) }
        ensures here { self.old.back ≡ 0 → self.new ≡ self.old }
        ensures err { OnErr result (self.new ≡ self.old) }
        ensures only { IfErr result (λ fault. fault ≡ BenchFault.Memory) }
    {
        if self.back == 0 {
            return Ok(());
        }
        self.be_behind(line)
    }

    /// Performs the next line from a place that is whole. None where memory is refused before that: then nothing is
    /// done.
    fn play_next<W: Write>(&mut self, writer: &mut W) -> Option<Result<Outcome, WriteFailed>>
        requires whole { self.old.back ≡ 0 }
        requires ahead { self.old.whole < length self.old.lines }
        ensures done { IfSome result (λ replied.
            Plays self.old self.new (W.contents writer.old) (W.contents writer.new) replied) }
        ensures none { result ≡ None → (self.new ≡ self.old) × (W.contents writer.new ≡ W.contents writer.old) }
    {
        // So that nothing can fail between the line and what is noted of it.
        if self.did.reserve(1).is_err() || self.known.reserve(1).is_err() {
            return None;
        }
        let line = self.lines[self.whole].as_slice();
        let number = (self.whole + 1) as u32;
        let played = play(&mut self.player, writer, &mut self.session, number, line)?;
        let events = self.events + performed_by(played.did);
        let answered = both(self.answered, played.replied.is_ok());
        note(&mut self.did, self.whole, played.did);
        keep(&mut self.known, self.whole, played.known);
        self.answered = answered;
        self.events = events;
        self.whole += 1;
        Some(played.replied)
    }

    /// Takes the newest events back, at most so many and as far as the journal reaches, and gives how many.
    pub fn back(&mut self, most: usize) -> usize
        ensures count { result ≡ min most (length self.old.session.machine.past) }
        ensures tape { self.new ≡ record self.old {
          back = self.old.back + result;
          session = taken_back result self.old.session;
        } }
    {
        let taken = self.session.back_by(most);
        self.back += taken;
        taken
    }

    /// Goes to right behind an event among the lines that were performed so far, by its number from 1; to the start for
    /// 0. Where there are not so many, it goes behind the last line; and where the journal doesn't reach back to it from the
    /// end of its line, as near as it does.
    ///
    /// By steps back where the event stands and the journal still reaches; else to behind the line that performed it, and
    /// what is too much is taken back. Where memory is refused to that, the place stays.
    pub fn goto(&mut self, event: u64) -> Result<(), BenchFault>
        ensures near { OnOk result (IsNear event self.new) }
        ensures kept { OnOk result (self.new ≡ record self.old {
          whole = self.new.whole;
          back = self.new.back;
          session = self.new.session;
        }) }
        ensures err { OnErr result (self.new ≡ self.old) }
        ensures beyond { OnErr result (IsOutOfReach event self.old) }
        ensures only { IfErr result (λ fault. fault ≡ BenchFault.Memory) }
    {
        if self.steps_back_to(event) {
            return Ok(());
        }
        self.be_behind(self.line_of(event))?;
        let newer = self.behind(event);
        self.back(newer);
        Ok(())
    }

    /// Goes to right behind an event by steps back. False where it does not stand, or where the journal does not reach: then
    /// the place stays.
    fn steps_back_to(&mut self, event: u64) -> bool
        ensures there { IsTrue result → event_of self.new ≡ event }
        ensures kept { IsTrue result → self.new ≡ record self.old {
          back = self.new.back;
          session = self.new.session;
        } }
        ensures same { result ≡ false → self.new ≡ self.old }
        ensures beyond { result ≡ false → IsOutOfReach event self.old }
    {
        let steps = self.behind(event);
        if steps > self.session.machine().can_go_back() || self.event_back(steps) != event {
            return false;
        }
        self.back(steps);
        true
    }

    /// Goes to where so many lines stand whole, or all that were performed so far. Where memory is refused to that,
    /// the place stays. A place that is there already stays too.
    pub fn to_line(&mut self, line: usize) -> Result<(), BenchFault>
        ensures ok { OnOk result (self.new ≡ record self.old {
          whole = min line (length self.old.did);
          back = 0;
          session = self.new.session;
        }) }
        ensures here { self.old.back ≡ 0 → min line (length self.old.did) ≡ self.old.whole → self.new ≡ self.old }
        ensures err { OnErr result (self.new ≡ self.old) }
        ensures only { IfErr result (λ fault. fault ≡ BenchFault.Memory) }
    {
        let line = line.min(self.did.len());
        if line == self.whole && self.back == 0 {
            return Ok(());
        }
        self.be_behind(line)
    }

    /// Goes to where so many lines stand whole: along the lines between where each of them did no more than one event,
    /// and else from a new machine on.
    fn be_behind(&mut self, line: usize) -> Result<(), BenchFault>
        requires { line ≤ length self.old.did }
        ensures ok { OnOk result (self.new ≡ record self.old {
          whole = line;
          back = 0;
          session = self.new.session;
        }) }
        ensures err { OnErr result (self.new ≡ self.old) }
        ensures only { IfErr result (λ fault. fault ≡ BenchFault.Memory) }
    {
        if self.goes_along(line) {
            return Ok(());
        }
        self.replay_to(line)
    }

    /// Goes to where so many lines stand whole, along lines that did no more than one event each. False where others
    /// lie between, or where memory is refused: then the place stays.
    fn goes_along(&mut self, line: usize) -> bool
        requires { line ≤ length self.old.did }
        ensures there { IsTrue result → self.new ≡ record self.old {
          whole = line;
          back = 0;
          session = self.new.session;
        } }
        ensures same { result ≡ false → self.new ≡ self.old }
    {
        let end = self.end_of(line);
        let gone = go_along(
            &mut self.player,
            &mut self.session,
            self.lines.as_slice(),
            self.known.as_slice(),
            self.whole,
            self.back,
            line,
        );
        if gone {
            self.whole = line;
            self.events = end;
            self.back = 0;
        }
        gone
    }

    /// Goes to where so many lines stand whole, from a new machine on.
    fn replay_to(&mut self, line: usize) -> Result<(), BenchFault>
        requires { line ≤ length self.old.did }
        ensures ok { OnOk result (self.new ≡ record self.old {
          whole = line;
          back = 0;
          session = self.new.session;
        }) }
        ensures err { OnErr result (self.new ≡ self.old) }
        ensures only { IfErr result (λ fault. fault ≡ BenchFault.Memory) }
    {
        let end = self.end_of(line);
        match replayed(
            self.alloc,
            self.settings,
            &mut self.player,
            &self.lines.as_slice()[..line],
            self.did.as_slice(),
        ) {
            Ok(Left { session, known }) => {
                put(&mut self.session, session);
                self.known = known;
                self.whole = line;
                self.events = end;
                self.back = 0;
                Ok(())
            }
            Err(fault) => Err(fault),
        }
    }

    /// Drops the lines that lie ahead of the place, and gives how many they were: this comes before a line that is
    /// typed in the past. What is shown stays: the machine's state, whether a driver stands there, and its plan.
    ///
    /// Where events of the lines that stay lie ahead, lines `back N` are put behind them, which take these events back: so
    /// the lines still lead to the place. A line that says something of a driver or a plan stays, since steps back leave both
    /// as they are.
    ///
    /// It fails as `Memory`: then nothing is done; or the lines are dropped, all that stay stand whole, and of the events that
    /// lie ahead only some are taken back, by lines behind the others.
    pub fn cut(&mut self) -> Result<usize, BenchFault>
        ensures ok { IfOk result (IsCut self.old self.new) }
        ensures err { OnErr result ((self.new ≡ self.old) ⊎ IsPartlyCut self.old self.new) }
        ensures only { IfErr result (λ fault. fault ≡ BenchFault.Memory) }
    {
        // No more events are taken back than were performed.
        if self.back as u64 > self.events {
            return Err(BenchFault::Memory);
        }
        let place = self.cut_place();
        self.be_at(place.whole)?;
        let dropped = self.drop_ahead();
        self.take_for_good(place.back)?;
        Ok(dropped)
    }

    /// The same place with fewer lines: those that lie ahead of it are left out, up to one that says something of a driver or
    /// a plan.
    fn cut_place(&self) -> Place
        requires { self.now.back ≤ end_of self.now.whole self.now.did }
        ensures { IsCutPlace self.now result }
    {
        let mut line = self.whole;
        let mut depth = self.back as u64;
        if self.back == 0 {
            return Place {
                whole: line,
                back: 0,
            };
        }
        while line > 0 {
            if !leaves_driver(self.lines[line - 1].as_slice()) {
                break;
            }
            match self.did[line - 1] {
                Did::Performed(count) => {
                    if depth < count {
                        break;
                    }
                    depth -= count;
                }
                Did::TookBack(count) => {
                    if depth == 0 {
                        break;
                    }
                    depth += u64::from(count);
                }
            }
            line -= 1;
        }
        Place {
            whole: line,
            back: depth,
        }
    }

    /// Drops the lines behind those that stand whole.
    fn drop_ahead(&mut self) -> usize
        ensures tape { self.new ≡ record self.old {
          lines = take self.old.whole self.old.lines;
          did = take self.old.whole self.old.did;
        } }
        ensures dropped { result ≡ length self.old.lines - self.old.whole }
        ensures whole { self.new.whole ≡ length self.new.lines }
        ensures did { length self.new.did ≡ length self.new.lines }
    {
        let dropped = self.lines.len() - self.whole;
        self.lines.truncate(self.whole);
        self.did.truncate(self.whole);
        self.known.truncate(self.whole);
        dropped
    }

    /// Takes events back by lines of their own.
    fn take_for_good(&mut self, events: u64) -> Result<(), BenchFault>
        requires back { self.old.back ≡ 0 }
        requires whole { self.old.whole ≡ length self.old.lines }
        requires did { length self.old.did ≡ length self.old.lines }
        ensures ok { OnOk result (TakesBack self.old self.new events) }
        ensures none { events ≡ 0 → (self.new ≡ self.old) }
        ensures err { OnErr result (TakesFewerBack self.old self.new events) }
        ensures only { IfErr result (λ fault. fault ≡ BenchFault.Memory) }
    {
        let mut left = events;
        while left > 0 {
            let step = left.min(u64::from(MOST_BACK));
            self.take_by_line(step as u32)?;
            left -= step;
        }
        Ok(())
    }

    /// Takes events back by a line behind the last. Where memory is refused, nothing is done.
    fn take_by_line(&mut self, events: u32) -> Result<(), BenchFault>
        requires back { self.old.back ≡ 0 }
        requires whole { self.old.whole ≡ length self.old.lines }
        requires did { length self.old.did ≡ length self.old.lines }
        ensures ok { OnOk result (TakesBack self.old self.new events) }
        ensures err { OnErr result (self.new ≡ self.old) }
        ensures only { IfErr result (λ fault. fault ≡ BenchFault.Memory) }
    {
        let Ok(line) = back_line(self.alloc, u64::from(events)) else {
            return Err(BenchFault::Memory);
        };
        let Ok(()) = self.add(line.as_slice()) else {
            return Err(BenchFault::Memory);
        };
        if !self.take_next(events) {
            self.drop_ahead();
            return Err(BenchFault::Memory);
        }
        Ok(())
    }

    /// Takes so many events back by the next line, from a place that is whole. False where memory is refused, where the line
    /// does not say so, or where the journal does not reach: then nothing is done.
    fn take_next(&mut self, events: u32) -> bool
        requires whole { self.old.back ≡ 0 }
        requires ahead { self.old.whole < length self.old.lines }
        ensures done { IsTrue result → TakesNext self.old self.new events }
        ensures none { result ≡ false → self.new ≡ self.old }
    {
        let line = self.lines[self.whole].as_slice();
        if !takes_back(line, events) {
            return false;
        }
        if self.session.machine().can_go_back() < events as usize {
            return false;
        }
        // So that nothing can fail between the steps back and what is noted of them.
        if self.did.reserve(1).is_err() || self.known.reserve(1).is_err() {
            return false;
        }
        let played = take(&mut self.session, events);
        note(&mut self.did, self.whole, played.did);
        keep(&mut self.known, self.whole, played.known);
        self.whole += 1;
        true
    }

    /// The machine at the place, to look at: it is what the lines left as they were performed, with so many of the
    /// newest events taken back.
    pub fn machine(&self) -> &Machine
        ensures value { result.now ≡ self.now.session.machine }
        ensures tape { IsTape self.now.first self.now.lines self.now.did self.now.answered self.now.whole self.now.back self.now.session }
    {
        self.session.machine()
    }

    /// The number of the newest event that stands at the place; 0 where none does.
    pub fn event(&self) -> u64
        ensures { result ≡ event_of self.now }
    {
        self.event_back(0)
    }

    /// The number of the event so many steps back from the place, of the newest at 0; 0 where not so many stand.
    pub fn event_back(&self, k: usize) -> u64
        ensures { result ≡ event_at k self.now }
    {
        match self.name_back(k) {
            Some(Name { line, access }) => self.end_of(line - 1) + access,
            None => 0,
        }
    }

    /// The number of the event so many ahead of the place, in the order in which events were performed: counted from the newest
    /// that stands, if the line of the place performed it, and else from the end of that line, which took events of earlier
    /// ones back, or performed none.
    pub fn event_ahead(&self, events: u64) -> u64
        ensures { result ≡ min (reached self.now + events) 0xFFFF_FFFF_FFFF_FFFF }
    {
        // (a proof asks what holds of the tape)
        let _machine = self.machine();
        let event = self.event();
        let line = self.line();
        let last = if self.line_of(event) == line {
            event
        } else {
            self.end_of(line)
        };
        last.saturating_add(events)
    }

    /// The name of the event so many steps back from the place, of the newest at 0; none where not so many stand.
    pub fn name_back(&self, k: usize) -> Option<Name>
        ensures is { result ≡ slice_get (standing self.now) k }
        ensures named { IfSome result (IsNamed self.now) }
    {
        // No more stand than were performed.
        if k as u64 >= self.events.saturating_sub(self.back as u64) {
            return None;
        }
        name_at(&self.did.as_slice()[..self.whole], (self.back + k) as u64)
    }

    /// The note of the event so many steps back from the place, of the newest at 0: what kind of event it was, where, and with
    /// which value. None exactly where the journal does not reach so far back.
    pub fn note_back(&self, k: usize) -> Option<Note>
        ensures none { IsNone result ↔ (length self.now.session.machine.past ≤ k) }
        // it tells of the event that led from the state one step further back to the state there
        ensures tells { IfSome result (λ note. TellsAt (states self.now.session.machine) k note) }
    {
        self.session.acts().note(k)
    }

    /// The name of an event by its number, among the lines that were performed so far; none where not so many were
    /// performed, and for number 0.
    pub fn name_of(&self, event: u64) -> Option<Name>
        ensures { result ≡ name_of event self.now.did }
    {
        name_of(self.did.as_slice(), self.end(), event)
    }

    /// How many of the events that stand at the place have a greater number: so many steps back lead to where none has.
    pub fn behind(&self, event: u64) -> usize
        ensures { result ≡ behind event self.now }
    {
        if self.back as u64 >= self.events {
            return 0;
        }
        above(self.did.as_slice(), self.end(), self.back as u64, event) as usize
    }

    /// The number of the line where the place lies: the last that stands whole; where events are taken back, the last that
    /// does not lie ahead with all that it did. 0 before the first line.
    pub fn line(&self) -> usize
        ensures here { result ≡ line_here self.now }
        ensures whole { self.now.back ≡ 0 → result ≡ self.now.whole }
        ensures within { result ≤ self.now.whole }
    {
        if self.back as u64 > self.events {
            return 0;
        }
        place_of(&self.did.as_slice()[..self.whole], self.back as u64).whole
    }

    /// The line that performed an event, by the event's number, among those that were performed so far; 0 for number 0, and
    /// the last where not so many events were performed.
    pub fn line_of(&self, event: u64) -> usize
        ensures line { result ≡ line_of event self.now.did }
        ensures within { result ≤ length self.now.did }
    {
        end_behind(self.did.as_slice(), self.end(), event).line
    }

    /// How many events the first so many lines performed, of those that were performed so far.
    pub fn end_of(&self, line: usize) -> u64
        requires { line ≤ length self.now.did }
        ensures { result ≡ end_of line self.now.did }
    {
        end_of(self.did.as_slice(), self.end(), line)
    }

    fn end(&self) -> End
        ensures { result ≡ record { line = self.now.whole; events = end_of self.now.whole self.now.did } }
    {
        End {
            line: self.whole,
            events: self.events,
        }
    }

    /// What a line did with events that was performed so far, by its number from 1.
    pub fn performed_by(&self, line: usize) -> Option<Did>
        ensures { result ≡ line_at line self.now.did }
    {
        if line == 0 {
            return None;
        }
        self.did.as_slice().get(line - 1).copied()
    }

    /// How many lines stand performed at the place.
    pub fn whole(&self) -> usize
        ensures { result ≡ self.now.whole }
    {
        self.whole
    }

    /// Whether no event of the lines at the place is taken back.
    pub fn is_whole(&self) -> bool
        ensures { result ≡ nat_eq self.now.back 0 }
    {
        self.back == 0
    }

    /// Whether lines that lie ahead were performed already.
    pub fn was_performed_ahead(&self) -> bool
        ensures { result ≡ nat_lt self.now.whole (length self.now.did) }
    {
        self.whole < self.did.len()
    }

    /// How many lines there are.
    pub fn len(&self) -> usize
        ensures len { result ≡ length self.now.lines }
        ensures few { result ≤ MOST_LINES }
    {
        self.lines.len()
    }

    /// Whether there is no line.
    pub fn is_empty(&self) -> bool
        ensures { IsTrue result ↔ (length self.now.lines ≡ 0) }
    {
        self.lines.is_empty()
    }

    /// How many lines were performed so far, those ahead of the place among them.
    pub fn performed(&self) -> usize
        ensures { result ≡ length self.now.did }
    {
        self.did.len()
    }

    /// The text of a line by its number, from 1; none where there is no such line.
    pub fn text(&self, line: usize) -> Option<&[u8]>
        ensures { option_map (λ text. text.now) result ≡ line_at line self.now.lines }
    {
        if line == 0 {
            return None;
        }
        text_at(self.lines.as_slice(), line - 1)
    }
}

fn both(one: bool, other: bool) -> bool
    ensures { result ≡ one && other }
{
    one && other
}
