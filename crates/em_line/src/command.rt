//! What to do with a machine.
ghost use Rattle.std.specs.Prelude.{◌≡◌};
ghost use Rattle.em_line.specs.Command.{is_look, plain};

use crate::back_count::BackCount;
use crate::look::Look;
use crate::peek_len::PeekLen;
use em_step::Event;

/// What to do with a machine. The octets that an event writes are borrowed.
#[derive(Clone, Copy)]
pub enum Command<'a> {
    Event(Event<'a>),
    /// Show octets of guest memory, from an address on.
    Peek(u64, PeekLen),
    /// Show what one word asks for.
    Look(Look),
    /// Take the newest event back.
    Back,
    /// Take the newest events back, at most so many.
    BackBy(BackCount),
}

impl Command<'_> {
    ghost use Rattle.std.specs.Prelude.{◌≡◌};
    ghost use Rattle.em_line.specs.Command.{is_look, plain};

    /// Whether it only looks at the machine.
    pub fn is_look(self) -> bool
        ensures { result ≡ is_look (plain self.entry) }
    {
        match self {
            Command::Peek(..) | Command::Look(_) => true,
            Command::Event(_) | Command::Back | Command::BackBy(_) => false,
        }
    }
}
