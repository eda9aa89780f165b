//! Where a session stands, and what became of a line, for those who read answers as data.
ghost use Rattle.std.specs.Prelude.{◌≡◌};
ghost use Rattle.em_console.specs.Standing.{word_of};

/// Where a session stands.
#[derive(Clone, Copy, PartialEq, Eq, Debug)]
pub struct Standing {
    /// The line at its place, from 1; 0 before the first.
    pub line: u64,
    /// How many lines there are.
    pub lines: u64,
    /// The number of the newest event that stands there; 0 where none does.
    pub event: u64,
    /// Whether lines or events lie ahead of the place.
    pub is_ahead: bool,
}

/// What became of a line that was answered, as far as the session knows.
#[derive(Clone, Copy, PartialEq, Eq, Debug)]
pub enum Became {
    /// It says nothing.
    Silent,
    /// It is not understood, and nothing was done.
    Wrong,
    /// What it asks for was done.
    Done,
    /// The newest line that it performed was refused.
    Refused,
    /// What became of it is said in the answer's text, and there alone.
    Told,
    /// The session ended.
    Ended,
}

impl Became {
    /// The word for it.
    pub fn word(self) -> &'static str
        ensures { result.now ≡ word_of self }
    {
        match self {
            Became::Silent => "silent",
            Became::Wrong => "wrong",
            Became::Done => "done",
            Became::Refused => "refused",
            Became::Told => "told",
            Became::Ended => "ended",
        }
    }
}
