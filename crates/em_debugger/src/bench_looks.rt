//! em_bench's looks: `peek`, and those that one word asks for.
ghost use Rattle.std.specs.Prelude.{◌≡◌};
ghost use Rattle.em_text.specs.Writer.{Writes};
ghost use Rattle.em_debugger.specs.BenchLooks.{is_look, look_text};

use crate::reading::command_in;
use em_journal::Machine;
use em_prompt::Command;
use em_script::show_look;
use em_text::WriteFailed;
use std::io::Write;

/// Whether a line of em_bench's with this name only looks at the machine.
pub(crate) fn is_look(command: Command) -> bool
    ensures { result ≡ is_look command }
{
    matches!(command, Command::Peek | Command::Bench(_))
}

/// Answers a look as em_bench does: the text of its line says which.
pub(crate) fn answer_look<W: Write>(
    writer: &mut W,
    machine: &Machine,
    text: &[u8],
) -> Result<(), WriteFailed>
    ensures writes { Writes (W.contents writer.old) (W.contents writer.new) result (look_text machine.now text.now) }
{
    match command_in(text) {
        Some(command) if command.is_look() => {
            let _ = show_look(writer, machine, command)?;
            Ok(())
        }
        _ => Ok(()),
    }
}
