//! Where lines come from and answers go.
ghost use Rattle.std.specs.Prelude.{ℕ, List, OnOk, OnErr};
ghost use Rattle.std.specs.Io.{StartsWith};
ghost use Rattle.em_console.specs.Turns.{Turn, Told, Cut, asked};

use crate::fault::ConsoleFault;

/// A console, which asks for lines and tells texts.
pub trait Console {
    /// From one state of the console to another this turn passed, and nothing else did.
    ghost passes: { Self → Turn → Self → Type 0 };

    /// Asks for a line, which is then all that `line` holds; false where none comes any more.
    fn ask(&mut self, line: &mut Vec<u8>) -> Result<bool, ConsoleFault>
        ensures { passes self.old (asked result line.new.items) self.new };

    /// Tells a text. It is out when the call returns.
    fn tell(&mut self, text: &[u8]) -> Result<(), ConsoleFault>
        ensures told { OnOk result (passes self.old (Told text.now) self.new) }
        ensures cut { OnErr result
            ((part : List ℕ) × StartsWith text.now part × passes self.old (Cut part) self.new) };
}
