//! Where a session stands, and what became of a typed line, for those who read answers as data.
ghost use Rattle.std.specs.Prelude.{◌≡◌, ◌<◌, length};
ghost use Rattle.em_prompt.specs.Prompt.{plain as plain_prompted};
ghost use Rattle.em_prompt.specs.Typed.{plain};
ghost use Rattle.em_debugger.specs.Standing.{became_of, by_move, by_outcome, by_performed, by_prompted, by_typed};
ghost use Rattle.em_debugger.specs.Standing.{source_here, standing};

use crate::answering::{MOST_TYPED, asking};
use crate::debugger::Debugger;
use crate::marks::source_of;
use crate::place::line_here;
use em_console::{Became, Standing};
use em_prompt::{Typed, Wrong, prompted};
use em_script::Outcome;

impl Debugger {
    /// Where it stands.
    pub fn standing(&self) -> Standing
        ensures { result ≡ standing self.now }
    {
        Standing {
            line: line_here(&self.tape) as u64,
            lines: self.tape.len() as u64,
            event: self.tape.event(),
            is_ahead: self.is_among_lines(),
        }
    }

    /// Where the line at the place comes from; no octet where it does not say so.
    pub fn source(&self) -> &[u8]
        ensures { result.now ≡ source_here self.now }
    {
        source_of(self.marks.of(line_here(&self.tape)))
    }

    /// What became of the line that was answered last, before which it stood so.
    pub fn became(&self, line: &[u8], before: Standing) -> Became
        ensures { result ≡ became_of self.now line.now before }
    {
        if line.len() >= MOST_TYPED {
            return Became::Wrong;
        }
        match asking(self.settings.profile, line) {
            Some(_) => self.by_performed(before),
            None => self.by_prompted(before, prompted(self.settings.profile, line)),
        }
    }

    fn by_prompted(&self, before: Standing, said: Result<Typed<'_>, Wrong<'_>>) -> Became
        ensures { result ≡ by_prompted self.now before (plain_prompted said.entry) }
    {
        match said {
            Ok(typed) => self.by_typed(before, typed),
            Err(_) => Became::Wrong,
        }
    }

    fn by_typed(&self, before: Standing, typed: Typed<'_>) -> Became
        ensures { result ≡ by_typed self.now before (plain typed.entry) }
    {
        match typed {
            Typed::Silent => Became::Silent,
            Typed::Line(_) | Typed::Next(_) | Typed::Run | Typed::RunUntil(_) => {
                self.by_performed(before)
            }
            Typed::ArriveNext | Typed::ArriveAll => self.by_performed(before),
            Typed::Back(_) | Typed::BackTo(_) | Typed::Goto(_) => self.by_move(before),
            Typed::Forward(_) | Typed::ForwardTo(_) | Typed::GotoMark(_) => self.by_move(before),
            Typed::Quit => Became::Ended,
            _ => Became::Told,
        }
    }

    /// By the newest line that was performed since, if there is one.
    fn by_performed(&self, before: Standing) -> Became
        ensures { result ≡ by_performed self.now before }
    {
        let line = line_here(&self.tape);
        if before.line < line as u64 {
            by_outcome(self.came.of(line))
        } else {
            Became::Told
        }
    }

    /// By whether it stands elsewhere now.
    fn by_move(&self, before: Standing) -> Became
        ensures { result ≡ by_move self.now before }
    {
        if before.line == line_here(&self.tape) as u64 && before.event == self.tape.event() {
            Became::Told
        } else {
            Became::Done
        }
    }
}

fn by_outcome(outcome: Outcome) -> Became
    ensures { result ≡ by_outcome outcome }
{
    match outcome {
        Outcome::Silent => Became::Silent,
        Outcome::Bad => Became::Wrong,
        Outcome::Refused(_) => Became::Refused,
        _ => Became::Done,
    }
}
