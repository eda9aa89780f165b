//! What happened so far that a known difference rests on.
ghost use Rattle.std.specs.Prelude.{◌≡◌};
ghost use Rattle.em_step.specs.Event.{plain as plain_event};
ghost use Rattle.em_line.specs.Command.{plain as plain_command};
ghost use Rattle.em_line.specs.Grammar.{parsed_line};
ghost use Rattle.em_line.specs.ParsedLine.{says};
ghost use Rattle.em_known.specs.Causes.{after_event, after_line, after_read, after_write, at_power, lost};

use em_line::{Command, LineForm, form_of, is_line};
use em_regs::Reg;
use em_step::Event;

/// CTRL.RST.
const RST: u32 = 1 << 26;

/// RCTL.EN.
const EN: u32 = 1 << 1;

/// What happened so far that a known difference rests on. Behind a line that takes events back, or does more than one, no
/// cause stands.
#[derive(Clone, Copy)]
pub struct Causes {
    /// CTRL was written since the last reset.
    pub ctrl: bool,
    /// LEDCTL was.
    pub ledctl: bool,
    /// PBA was.
    pub pba: bool,
    /// VET was.
    pub vet: bool,
    /// TDT was: an engine that runs by itself may have sent frames.
    pub tdt: bool,
    /// RDT was: it may have received some.
    pub rdt: bool,
    /// RCTL was written with EN since the last reset: frames may have arrived.
    pub enabled: bool,
    /// TDT or TCTL was written since the last read of ICR.
    pub sent: bool,
    /// A frame arrived since then.
    pub arrived: bool,
}

impl Causes {
    ghost use Rattle.std.specs.Prelude.{◌≡◌};
    ghost use Rattle.em_step.specs.Event.{plain as plain_event};
    ghost use Rattle.em_line.specs.Command.{plain as plain_command};
    ghost use Rattle.em_line.specs.Grammar.{parsed_line};
    ghost use Rattle.em_line.specs.ParsedLine.{says};
    ghost use Rattle.em_known.specs.Causes.{after_event, after_line, after_read, after_write, at_power, lost};

    /// Of a machine that was made, and right behind a reset.
    pub fn new() -> Causes
        ensures { result ≡ at_power }
    {
        Causes {
            ctrl: false,
            ledctl: false,
            pba: false,
            vet: false,
            tdt: false,
            rdt: false,
            enabled: false,
            sent: false,
            arrived: false,
        }
    }

    /// Where it is not known what happened: no cause stands.
    fn lost() -> Causes
        ensures { result ≡ lost }
    {
        Causes {
            ctrl: true,
            ledctl: true,
            pba: true,
            vet: true,
            tdt: false,
            rdt: false,
            enabled: false,
            sent: false,
            arrived: false,
        }
    }

    /// Behind one more line, as it is played.
    pub fn after(self, line: &[u8]) -> Causes
        ensures { result ≡ after_line self (parsed_line line.now) }
    {
        if !is_line(line) {
            return self;
        }
        match form_of(line) {
            LineForm::Command(command) => self.after_command(command),
            LineForm::Arrive(_) => Causes {
                arrived: true,
                ..self
            },
            LineForm::Request(..) => Causes::lost(),
            LineForm::Silent | LineForm::Bad | LineForm::Poke(_) | LineForm::Plan(_) => self,
        }
    }

    fn after_command(self, command: Command<'_>) -> Causes
        ensures { result ≡ after_line self (says (plain_command command.entry)) }
    {
        match command {
            Command::Event(event) => self.after_event(event),
            Command::Back | Command::BackBy(_) => Causes::lost(),
            Command::Peek(..) | Command::Look(_) => self,
        }
    }

    fn after_event(self, event: Event<'_>) -> Causes
        ensures { result ≡ after_event self (plain_event event.entry) }
    {
        match event {
            Event::Read(offset) => match Reg::of_offset(offset) {
                Some(reg) => self.after_read(reg),
                None => self,
            },
            Event::Write(offset, value) => match Reg::of_offset(offset) {
                Some(reg) => self.after_write(reg, value),
                None => self,
            },
            Event::Arrive(_) => Causes {
                arrived: true,
                ..self
            },
            _ => self,
        }
    }

    fn after_read(self, reg: Reg) -> Causes
        ensures { result ≡ after_read self reg }
    {
        match reg {
            Reg::Icr => Causes {
                sent: false,
                arrived: false,
                ..self
            },
            _ => self,
        }
    }

    fn after_write(self, reg: Reg, value: u32) -> Causes
        ensures { result ≡ after_write self reg value }
    {
        match reg {
            Reg::Ctrl if value & RST != 0 => Causes::new(),
            Reg::Ctrl => Causes { ctrl: true, ..self },
            Reg::Ledctl => Causes {
                ledctl: true,
                ..self
            },
            Reg::Pba => Causes { pba: true, ..self },
            Reg::Vet => Causes { vet: true, ..self },
            Reg::Tdt => Causes {
                tdt: true,
                sent: true,
                ..self
            },
            Reg::Tctl => Causes { sent: true, ..self },
            Reg::Rdt => Causes { rdt: true, ..self },
            Reg::Rctl if value & EN != 0 => Causes {
                enabled: true,
                ..self
            },
            _ => self,
        }
    }
}
