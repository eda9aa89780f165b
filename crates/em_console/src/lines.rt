//! A console over a reader and a writer.
ghost use Rattle.std.specs.Prelude.{◌≡◌, ◌⊎◌, ℕ, List, [], OnOk, OnErr};
ghost use Rattle.std.specs.Io.{StartsWith};
ghost use Rattle.std.specs.Io.KnownBytes.{Appends};
ghost use Rattle.std.specs.Io.Buffered.{writer_buffer, writer_contents};

use crate::console::Console;
use crate::fault::ConsoleFault;
use crate::reading::read_line;
use em_text::write_whole;
use std::io::{BufRead, BufWriter, IsTerminal, Write};

/// A console over a reader and a writer, where each line ends in a newline.
///
/// Its reader is asked for octets only where it has no whole line at hand. So a terminal or a pipe is not waited for
/// before all lines that it gave are answered.
#[derive(Drop)]
pub struct LineConsole<'a, R: BufRead + Drop, W: Write + Drop> {
    reader: R,
    writer: BufWriter<W>,
    prompt: &'a [u8],
}

impl<'a, R: BufRead + Drop, W: Write + Drop> LineConsole<'a, R, W> {
    ghost use Rattle.em_console.specs.LineConsole.{reader_of, writer_of, prompt_of};

    /// Each line is asked for with the prompt, which may be empty: see [`prompt_for`].
    pub fn new(reader: R, writer: BufWriter<W>, prompt: &'a [u8]) -> LineConsole<'a, R, W>
        ensures reader { reader_of result ≡ reader }
        ensures writer { writer_of result ≡ writer }
        ensures prompt { prompt_of result ≡ prompt.now }
    {
        LineConsole {
            reader,
            writer,
            prompt,
        }
    }
}

impl<'a, R: BufRead + Drop, W: Write + Drop> Console for LineConsole<'a, R, W> {
    ghost use Rattle.em_console.specs.LineConsole.{LinePasses};

    ghost passes = { LinePasses R.remaining W.contents };

    fn ask(&mut self, line: &mut Vec<u8>) -> Result<bool, ConsoleFault> {
        put_out(&mut self.writer, self.prompt)?;
        read_line(&mut self.reader, line)
    }

    fn tell(&mut self, text: &[u8]) -> Result<(), ConsoleFault> {
        put_out(&mut self.writer, text)
    }
}

/// The prompt where lines come from a terminal, and none where they come from elsewhere.
pub fn prompt_for<'a, T: IsTerminal>(input: &T, prompt: &'a [u8]) -> &'a [u8]
    ensures { (result.now ≡ prompt.now) ⊎ (result.now ≡ []) }
{
    if input.is_terminal() { prompt } else { b"" }
}

/// Writes a text whole, and flushes it.
fn put_out<W: Write + Drop>(writer: &mut BufWriter<W>, text: &[u8]) -> Result<(), ConsoleFault>
    ensures ok { OnOk result (Appends (writer_contents W.contents writer.old)
        (writer_contents W.contents writer.new) text.now) }
    ensures out { OnOk result (writer_buffer writer.new ≡ []) }
    ensures err { OnErr result ((part : List ℕ) × StartsWith text.now part
        × Appends (writer_contents W.contents writer.old) (writer_contents W.contents writer.new) part) }
{
    if write_whole(writer, text).is_err() {
        return Err(ConsoleFault::Write);
    }
    if writer.flush().is_err() {
        return Err(ConsoleFault::Write);
    }
    Ok(())
}
