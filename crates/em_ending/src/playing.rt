//! Playing a script to its end, so that what was written is out before anything is said of it.
ghost use Rattle.std.specs.Io.Buffered.{writer_buffer, writer_contents};
ghost use Rattle.em_ending.specs.Playing.{Plays};

use crate::ending::Ending;
use em_run::run;
use em_script::{BenchFault, Session};
use std::alloc::Global;
use std::io::{BufWriter, Read, Write};

/// Runs a script, and tells how the program ends. What was answered is written out whole, also where
/// the run then stopped.
pub fn play<R: Read, W: Write + Drop>(
    alloc: Global,
    reader: &mut R,
    writer: &mut BufWriter<W>,
    session: &mut Session,
) -> Ending
    ensures { Plays (R.remaining reader.old) (R.remaining reader.new) session.old session.new
        (writer_contents W.contents writer.old) (writer_contents W.contents writer.new) (writer_buffer writer.new)
        result }
{
    let ran = run(alloc, reader, writer, session);
    if writer.flush().is_err() {
        return Ending::Fault(BenchFault::Write);
    }
    ran.into()
}
