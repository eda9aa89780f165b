//! What lines do with events, by their forms.
ghost use Rattle.std.specs.Prelude.{◌≡◌, false, IsTrue, Option};
ghost use Rattle.em_line.specs.Command.{back_by, plain};
ghost use Rattle.em_line.specs.Form.{said_by};
ghost use Rattle.em_line.specs.Grammar.{parsed_line};
ghost use Rattle.em_line.specs.ParsedLine.{says};
ghost use Rattle.em_script.specs.RefusedAt.{RefusedAt};
ghost use Rattle.em_script.specs.Reply.{line_outcome};
ghost use Rattle.em_script.specs.Session.{Session};
ghost use Rattle.em_tape.specs.Kind.{IsKind, SaysBack, SaysOfDriver, LeavesDriver};

use em_line::{Command, LineForm, RequestName, form_of};
use em_script::Outcome;

/// What a line does with events, if it says anything.
#[derive(Clone, Copy)]
pub(crate) enum Kind {
    /// It performs one.
    Event,
    /// It looks at the machine.
    Look,
    /// It takes some back.
    Back,
    /// It starts a driver, which performs some.
    Start,
    /// It calls the driver, which performs some.
    Call,
    /// It sets a plan for the next call of the driver.
    Plan,
    /// It says nothing, or nothing that is known.
    Nothing,
}

/// What a line does with events.
pub(crate) fn kind_of(line: &[u8]) -> Kind
    ensures { IsKind result (parsed_line line.now) }
{
    kind_of_form(form_of(line))
}

/// The same of a line that came out so. Only an event is answered, so such a line need not be read again.
pub(crate) fn kind_by(line: &[u8], outcome: Outcome) -> Kind
    ensures { (memory : Option RefusedAt) (before : Session) → outcome ≡ line_outcome memory (parsed_line line.now) before
        → IsKind result (parsed_line line.now) }
{
    match outcome {
        Outcome::Answered(_) => Kind::Event,
        _ => kind_of(line),
    }
}

/// What a line of this form does with events.
fn kind_of_form(form: LineForm<'_>) -> Kind
    ensures { IsKind result (said_by form.entry) }
{
    match form {
        LineForm::Silent | LineForm::Bad => Kind::Nothing,
        LineForm::Command(command) => kind_of_command(command),
        LineForm::Poke(_) | LineForm::Arrive(_) => Kind::Event,
        LineForm::Request(RequestName::Start, _) => Kind::Start,
        LineForm::Request(..) => Kind::Call,
        LineForm::Plan(_) => Kind::Plan,
    }
}

/// What a command does with events.
fn kind_of_command(command: Command<'static>) -> Kind
    ensures { IsKind result (says (plain command.entry)) }
{
    match command {
        Command::Event(_) => Kind::Event,
        Command::Back | Command::BackBy(_) => Kind::Back,
        Command::Peek(..) | Command::Look(_) => Kind::Look,
    }
}

/// Whether a line leaves a driver and its plan as they are.
pub(crate) fn leaves_driver(line: &[u8]) -> bool
    ensures leaves { IsTrue result → LeavesDriver (parsed_line line.now) }
    ensures says { result ≡ false → SaysOfDriver (parsed_line line.now) }
{
    match kind_of(line) {
        Kind::Event => true,
        Kind::Look => true,
        Kind::Back => true,
        Kind::Nothing => true,
        Kind::Start => false,
        Kind::Call => false,
        Kind::Plan => false,
    }
}

/// Whether a line takes so many events back.
pub(crate) fn takes_back(line: &[u8], events: u32) -> bool
    ensures is { IsTrue result → parsed_line line.now ≡ says (back_by events) }
    ensures says { IsTrue result → SaysBack (parsed_line line.now) }
{
    match form_of(line) {
        LineForm::Command(Command::BackBy(count)) => count.events == events,
        _ => false,
    }
}
