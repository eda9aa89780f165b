//! What answers the lines of a console.
ghost use Rattle.std.specs.Prelude.{◌≡◌, ℕ, List, [], IfOk, OnOk, OnErr};

use crate::standing::{Became, Standing};
use std::alloc::AllocError;

/// Whether a session goes on after a line.
#[derive(Clone, Copy, PartialEq, Eq, Debug)]
pub enum Flow {
    /// The next line is asked for.
    Goes,
    /// No more line is asked for.
    Ends,
}

/// A session, which answers one line after another.
pub trait Answers {
    ghost use Rattle.em_console.specs.declared.session.Flow.{Flow};

    /// In one state this line is answered by this text, the session goes on or ends, and is then in another state.
    ghost answers: { Self → List ℕ → List ℕ → Flow → Self → Type 0 };

    /// In one state this line is not answered for want of memory, and the session is then in another state.
    ghost stops: { Self → List ℕ → Self → Type 0 };

    /// In a state this line, which is too long, is refused by this text.
    ghost refuses: { Self → List ℕ → List ℕ → Type 0 };

    /// Answers a line: the text is put into `text`, which is empty.
    fn answer(&mut self, line: &[u8], text: &mut Vec<u8>) -> Result<Flow, AllocError>
        requires { text.old.items ≡ [] }
        ensures ok { IfOk result (λ flow. answers self.old line.now text.new.items flow self.new) }
        ensures err { OnErr result (stops self.old line.now self.new) };

    /// Refuses a line that is too long: the text is put into `text`, which is empty.
    fn refuse(&self, line: &[u8], text: &mut Vec<u8>) -> Result<(), AllocError>
        requires { text.old.items ≡ [] }
        ensures ok { OnOk result (refuses self.now line.now text.new.items) };
}

/// A session that knows where it stands.
pub trait Stands {
    ghost use Rattle.em_console.specs.declared.standing.Became.{Became};
    ghost use Rattle.em_console.specs.declared.standing.Standing.{Standing};

    /// Where it stands in a state.
    ghost stands: { Self → Standing };

    /// Where the line at its place comes from.
    ghost comes_from: { Self → List ℕ };

    /// What became of a line that led to a state from where it stood so.
    ghost led: { Self → List ℕ → Standing → Became };

    fn standing(&self) -> Standing
        ensures { result ≡ stands self.now };

    /// Where the line at the place comes from; no octet where that is not known.
    fn source(&self) -> &[u8]
        ensures { result.now ≡ comes_from self.now };

    /// What became of the line that was answered last, before which the session stood so.
    fn became(&self, line: &[u8], before: Standing) -> Became
        ensures { result ≡ led self.now line.now before };
}
