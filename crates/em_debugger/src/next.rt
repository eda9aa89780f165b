//! Performing so many lines.
ghost use Rattle.std.specs.Prelude.{List, ℕ, OnOk};
ghost use Rattle.std.specs.Io.KnownBytes.{Appends};
ghost use Rattle.em_text.specs.Writer.{Writes};
ghost use Rattle.em_debugger.specs.Performing.{no_line_text};
ghost use Rattle.em_debugger.specs.Next.{TellsNext};

use crate::debugger::Debugger;
use crate::performing::write_fault;
use em_text::{WriteFailed, write_whole};
use std::io::Write;

impl Debugger {
    /// Performs so many lines, each with the steps that engines make behind it, and shows each with its answer.
    pub(crate) fn next<W: Write>(&mut self, writer: &mut W, count: u32) -> Result<(), WriteFailed>
        ensures ok { OnOk result ((text : List ℕ) × Appends (W.contents writer.old) (W.contents writer.new) text
            × TellsNext count self.old self.new text) }
    {
        for index in 0..count {
            let lines = self.tape.len();
            match self.perform_next() {
                Ok(Some(performed)) => {
                    self.write_performed(writer, performed)?;
                    self.show_steps(writer, lines)?;
                }
                Ok(None) => return write_no_line(writer, index),
                Err(fault) => return write_fault(writer, fault),
            }
        }
        Ok(())
    }
}

/// Writes that no line lies ahead, behind so many that did.
fn write_no_line<W: Write>(writer: &mut W, before: u32) -> Result<(), WriteFailed>
    ensures writes { Writes (W.contents writer.old) (W.contents writer.new) result (no_line_text before) }
{
    if before == 0 {
        write_whole(writer, b"no line lies ahead\n")
    } else {
        write_whole(writer, b"no more line lies ahead\n")
    }
}
