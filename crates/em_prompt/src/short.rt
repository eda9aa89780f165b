//! Commands by the first letters of their names.
ghost use Rattle.std.specs.Prelude.{◌≡◌};
ghost use Rattle.std.specs.Str.{bytes_eq};
ghost use Rattle.em_prompt.specs.Command.{name_of};
ghost use Rattle.em_prompt.specs.Short.{first_short, last_short, only_own};

use crate::command::{COMMANDS, Command};
use crate::foreign::Foreign;
use crate::near::begins;

impl Command {
    ghost use Rattle.std.specs.Prelude.{◌≡◌};
    ghost use Rattle.em_prompt.specs.Short.{asks_driver, is_access, is_call, is_frame, is_own, is_short};
    ghost use Rattle.em_prompt.specs.Short.{meant, overwrites, sets_driver, shortened};

    /// The command that a word means: by its name, or by the first letters of that.
    pub(crate) fn meant(word: &[u8]) -> Option<Command>
        ensures { result ≡ meant word.now }
    {
        match Command::of(word) {
            Some(command) => Some(command),
            None => Command::shortened(word),
        }
    }

    /// The command that the first letters of a name mean: one of the debugger's own, where no other command's name begins
    /// so. What overwrites a file is typed whole, and so is a line of a script; and gdb's words mean what they do in gdb.
    fn shortened(word: &[u8]) -> Option<Command>
        ensures { result ≡ shortened word.now }
    {
        match Foreign::of(word) {
            Some(_) => None,
            None => only_own(first_short(word), last_short(word)),
        }
    }

    /// Whether letters are the first of its name, and it may be typed so.
    fn is_short(self, word: &[u8]) -> bool
        ensures { result ≡ is_short word.now self }
    {
        begins(word, self.name().as_bytes()) && !self.overwrites()
    }

    /// Whether it writes over a file.
    fn overwrites(self) -> bool
        ensures { result ≡ overwrites self }
    {
        matches!(self, Command::SaveOver | Command::PcapOver)
    }

    /// Whether it is no line of a script.
    fn is_own(self) -> bool
        ensures { result ≡ is_own self }
    {
        !self.is_access() && (!self.is_frame() && !self.is_call())
    }

    /// Whether it is a line of a script that reads or writes, or looks.
    fn is_access(self) -> bool
        ensures { result ≡ is_access self }
    {
        matches!(
            self,
            Command::Read | Command::Write | Command::Poke | Command::Peek | Command::Bench(_)
        )
    }

    /// Whether it is a line of a script that moves frames, or the link.
    fn is_frame(self) -> bool
        ensures { result ≡ is_frame self }
    {
        matches!(
            self,
            Command::Arrive | Command::Rx | Command::Tx | Command::Link
        )
    }

    /// Whether it is a line of a script that calls a driver.
    fn is_call(self) -> bool
        ensures { result ≡ is_call self }
    {
        self.asks_driver() || self.sets_driver()
    }

    fn sets_driver(self) -> bool
        ensures { result ≡ sets_driver self }
    {
        matches!(self, Command::Mac | Command::Turns)
    }

    fn asks_driver(self) -> bool
        ensures { result ≡ asks_driver self }
    {
        matches!(
            self,
            Command::Init | Command::Send | Command::Recv | Command::Stats
        )
    }
}

/// The first command that letters may mean.
fn first_short(word: &[u8]) -> Option<Command>
    ensures { result ≡ first_short word.now }
{
    COMMANDS
        .iter()
        .copied()
        .find(|command| command.is_short(word))
}

/// The last.
fn last_short(word: &[u8]) -> Option<Command>
    ensures { result ≡ last_short word.now }
{
    COMMANDS
        .iter()
        .rev()
        .copied()
        .find(|command| command.is_short(word))
}

/// The only one, if the first and the last of them are one, and it is the debugger's own.
fn only_own(first: Option<Command>, last: Option<Command>) -> Option<Command>
    ensures { result ≡ only_own first last }
{
    match (first, last) {
        (Some(first), Some(last)) if is_one(first, last) && first.is_own() => Some(first),
        _ => None,
    }
}

/// Whether two commands have one name.
fn is_one(first: Command, last: Command) -> bool
    ensures { result ≡ bytes_eq (name_of first) (name_of last) }
{
    first.name().as_bytes() == last.name().as_bytes()
}
