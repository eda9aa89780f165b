//! Engines that run by themselves: their steps are lines of the session.
ghost use Rattle.std.specs.Prelude.{◌≡◌, ◌<◌, ◌≤◌, IfErr, IfSome, OnOk, OnErr, length, nat_lt};
ghost use Rattle.em_text.specs.Writer.{Writes};
ghost use Rattle.em_debugger.specs.Engines.{Engages, PutsNone, PutsStep, engine_behind, engines_are, behind_refused};
ghost use Rattle.em_debugger.specs.Engines.{behind_step, is_refused, running, sending, step_line, step_of, steps_of};
ghost use Rattle.em_debugger.specs.Performing.{IsUnadded};

use crate::debugger::Debugger;
use crate::performing::Performed;
use crate::reading::command_said;
use em_journal::Machine;
use em_line::Command;
use em_prompt::Side;
use em_reasons::{why_rx_idle, why_tx_idle};
use em_script::{BenchFault, Outcome};
use em_step::Event;
use em_tape::Tape;
use em_text::{WriteFailed, write_whole};
use std::io::Write;

/// How many steps engines make by themselves at most, once that is switched on: as many as a session has lines.
const MOST_STEPS: u32 = 0xFFFF_FFFF;

/// The line that lets the receive engine make a step.
const RX: &[u8; 2] = b"rx";

/// The line that lets the transmit engine make one.
const TX: &[u8; 2] = b"tx";

impl Debugger {
    /// Lets the engines run by themselves, or not.
    pub(crate) fn switch_engines<W: Write>(
        &mut self,
        writer: &mut W,
        on: bool,
    ) -> Result<(), WriteFailed>
        ensures writes { Writes (W.contents writer.old) (W.contents writer.new) result (engines_are on) }
        ensures switched { self.new ≡ record self.old { engines = steps_of on } }
    {
        if on {
            self.engines = MOST_STEPS;
            write_whole(writer, b"engines run by themselves\n")
        } else {
            self.engines = 0;
            write_whole(writer, b"engines stand still\n")
        }
    }

    /// Whether the engines run by themselves.
    pub(crate) fn has_engines(&self) -> bool
        ensures { result ≡ nat_lt 0 self.now.engines }
    {
        self.engines > 0
    }

    /// Puts the step that an engine makes by itself behind a line that was performed, if one makes any. Before the line
    /// so many events stood.
    pub(crate) fn engage(&mut self, performed: Performed, before: u64) -> Result<(), BenchFault>
        ensures ok { OnOk result (Engages before performed self.old self.new) }
        ensures err { OnErr result (PutsNone self.old self.new) }
        ensures only { IfErr result IsUnadded }
        ensures settings { self.new.settings ≡ self.old.settings }
    {
        match self.engine_behind(performed, before) {
            Some(side) => self.put_step(side),
            None => Ok(()),
        }
    }

    /// Which engine makes a step by itself behind a line.
    fn engine_behind(&self, performed: Performed, before: u64) -> Option<Side>
        ensures engine { result ≡ engine_behind before performed self.now }
        ensures left { IfSome result (λ side. 0 < self.now.engines) }
        ensures newest { IfSome result (λ side. length self.now.tape.did ≤ self.now.tape.whole) }
    {
        if self.engines == 0 || self.tape.was_performed_ahead() {
            return None;
        }
        let machine = self.tape.machine();
        let step = step_of(&self.tape, performed.line);
        if is_refused(performed.outcome) {
            return behind_refused(machine, step);
        }
        if self.tape.event() <= before {
            return None;
        }
        behind_step(machine, step)
    }

    /// Puts a step of an engine behind the lines that stand whole.
    fn put_step(&mut self, side: Side) -> Result<(), BenchFault>
        requires left { 0 < self.old.engines }
        requires newest { length self.old.tape.did ≤ self.old.tape.whole }
        ensures ok { OnOk result (PutsStep side self.old self.new) }
        ensures err { OnErr result (PutsNone self.old self.new) }
        ensures only { IfErr result IsUnadded }
        ensures settings { self.new.settings ≡ self.old.settings }
    {
        let whole = self.tape.whole();
        let Ok(()) = self.wanted.make_way(whole) else {
            return Err(BenchFault::Memory);
        };
        let Ok(()) = self.marks.make_way(whole) else {
            self.wanted.close_up(whole);
            return Err(BenchFault::Memory);
        };
        match self.tape.put_next(step_line(side)) {
            Ok(()) => {
                self.engines -= 1;
                Ok(())
            }
            Err(fault) => {
                self.wanted.close_up(whole);
                self.marks.close_up(whole);
                Err(fault)
            }
        }
    }
}

/// Whether a line was refused that came out so.
pub(crate) fn is_refused(outcome: Outcome) -> bool
    ensures { result ≡ is_refused outcome }
{
    matches!(outcome, Outcome::Refused(_))
}

/// The engine whose step a line is.
fn step_of(tape: &Tape, line: usize) -> Option<Side>
    ensures { result ≡ step_of line tape.now }
{
    match command_said(tape, line) {
        Some(Command::Event(Event::RxStep)) => Some(Side::Receive),
        Some(Command::Event(Event::TxStep)) => Some(Side::Transmit),
        _ => None,
    }
}

/// The line of a step.
fn step_line(side: Side) -> &'static [u8]
    ensures { result.now ≡ step_line side }
{
    match side {
        Side::Receive => RX,
        Side::Transmit => TX,
    }
}

/// Which engine goes on behind a step that was refused: the transmit engine, behind the other's.
fn behind_refused(machine: &Machine, step: Option<Side>) -> Option<Side>
    ensures { result ≡ behind_refused machine.now.present step }
{
    match step {
        Some(Side::Receive) => sending(machine),
        _ => None,
    }
}

/// Which engine goes on behind an event: the transmit engine alone, behind its own step.
fn behind_step(machine: &Machine, step: Option<Side>) -> Option<Side>
    ensures { result ≡ behind_step machine.now.present step }
{
    match step {
        Some(Side::Transmit) => sending(machine),
        _ => running(machine),
    }
}

/// The first engine that has something to do, the receive engine before the other.
fn running(machine: &Machine) -> Option<Side>
    ensures { result ≡ running machine.now.present }
{
    match why_rx_idle(machine) {
        None => Some(Side::Receive),
        Some(_) => sending(machine),
    }
}

/// The transmit engine, if it has something to do.
fn sending(machine: &Machine) -> Option<Side>
    ensures { result ≡ sending machine.now.present }
{
    match why_tx_idle(machine) {
        None => Some(Side::Transmit),
        Some(_) => None,
    }
}
