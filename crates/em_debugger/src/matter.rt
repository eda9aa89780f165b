//! What `why` tells, by what it asks about.
ghost use Rattle.std.specs.Prelude.{ℕ, List, OnOk};
ghost use Rattle.std.specs.Io.KnownBytes.{Appends};
ghost use Rattle.em_debugger.specs.Matter.{TellsWhy};

use crate::debugger::Debugger;
use crate::why::Such;
use em_prompt::Matter;
use em_text::WriteFailed;
use std::io::Write;

impl Debugger {
    /// Tells why an event did nothing, or why things are as they are.
    pub(crate) fn why<W: Write>(&self, writer: &mut W, matter: Matter) -> Result<(), WriteFailed>
        ensures ok { OnOk result ((text : List ℕ) × Appends (W.contents writer.old) (W.contents writer.new) text
            × TellsWhy self.now matter text) }
    {
        match matter {
            Matter::Newest => self.why_newest(writer, Such::Undone),
            Matter::Dropped => self.why_newest(writer, Such::Dropped),
            Matter::Line(line) => self.why_line(writer, line as usize),
            Matter::Step(side) => self.why_step(writer, side),
            Matter::Interrupt => self.why_interrupt(writer),
        }
    }
}
