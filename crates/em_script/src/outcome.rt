//! What becomes of a line.
ghost use Rattle.std.specs.Prelude.{◌≡◌};
ghost use Rattle.em_script.specs.Outcome.{event_came, name_of};

use crate::no_driver::NoDriver;
use em_driver::Cause;
use em_journal::Empty;
use em_step::{Answer, Refusal};

/// What became of a line.
#[derive(Clone, Copy, Debug, PartialEq, Eq)]
pub enum Outcome {
    /// It is blank or a comment.
    Silent,
    /// It has no form.
    Bad,
    /// Its event was performed, and answered so.
    Answered(Answer),
    /// A look, steps back, a plan or a call of a driver was done.
    Done,
    Refused(Refused),
}

/// What refused a line.
#[derive(Clone, Copy, Debug, PartialEq, Eq)]
pub enum Refused {
    /// An event, a look at memory or a plan was refused.
    By(Refusal),
    /// There was no event to take back.
    Empty,
    /// There was no driver to call.
    NoDriver,
    /// A call of a driver stopped.
    Stopped(Cause),
}

impl Outcome {
    /// What the event of a line came to that came out so; none where none was performed or refused. (A look at memory or a
    /// plan that was refused is no event, but comes out as one.)
    pub fn event(self) -> Option<Result<Answer, Refusal>>
        ensures { result ≡ event_came self }
    {
        match self {
            Outcome::Answered(answer) => Some(Ok(answer)),
            Outcome::Refused(Refused::By(refusal)) => Some(Err(refusal)),
            _ => None,
        }
    }
}

impl Refused {
    /// Its name, as it is printed.
    pub fn name(self) -> &'static str
        ensures { result.now ≡ name_of self }
    {
        match self {
            Refused::By(refusal) => refusal.name(),
            Refused::Empty => Empty.name(),
            Refused::NoDriver => NoDriver.name(),
            Refused::Stopped(cause) => cause.name(),
        }
    }
}
