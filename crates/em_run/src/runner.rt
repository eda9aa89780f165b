//! Running a whole script.
ghost use Rattle.std.specs.Prelude.{◌≡◌, ◌⊎◌, ℕ, ◌≤◌, ◌<◌, List, length, IfOk, IfErr, OnOk, IfSome, IsErrOf};
ghost use Rattle.std.specs.Io.KnownBytes.{Appends, Keeps};
ghost use Rattle.em_text.specs.Reader.{most_script};
ghost use Rattle.em_script.specs.ScriptText.{SaysMemory, TakesNoMemory, text};
ghost use Rattle.em_run.specs.Runner.{Answers, FailsInLine, ReadsWhole, StopsBeforeLine, StopsInScript};

use crate::summary::{Summary, count};
use em_journal::Acts;
use em_script::{BenchFault, Player, Session};
use em_text::{ReadFault, next_line, read_script};
use std::alloc::Global;
use std::io::{Read, Write};

/// Reads a whole script, plays its lines one after another, and writes their answers.
///
/// It reads by at most 4,194,305 calls of `read`, and writes by calls of `write` alone. A write
/// that takes no octet is a Write fault. Memory is taken for the script and for the octets of a
/// `poke` or an `arrive`.
pub fn run<R: Read, W: Write, M: Acts>(
    alloc: Global,
    reader: &mut R,
    writer: &mut W,
    session: &mut Session<M>,
) -> Result<Summary, BenchFault>
    // Where no line takes memory, what is written is the text of the script and nothing else.
    ensures text { OnOk result (IfSome (R.remaining reader.old) (λ script. TakesNoMemory script
        → Appends (W.contents writer.old) (W.contents writer.new) (text script session.old))) }

    // Where no line of what is written ends in ` Memory`, it is the text of the script with memory refused nowhere.
    ensures full { OnOk result (IfSome (R.remaining reader.old) (λ script. (written : List ℕ)
        → Appends (W.contents writer.old) (W.contents writer.new) written → (SaysMemory written → ⊥)
        → Appends (W.contents writer.old) (W.contents writer.new) (text script session.old))) }

    // What is written is the text of the script's lines, as they were played, and nothing else.
    ensures ok { IfOk result (λ summary. (script : List ℕ)
        × ReadsWhole (R.remaining reader.old) (R.remaining reader.new) script
        × Answers script session.old session.new
        (W.contents writer.old) (W.contents writer.new) summary) }

    // Where the script could not be read nothing happens.
    ensures read { IsErrOf result BenchFault.Read
        → (session.new ≡ session.old) × Keeps (W.contents writer.old) (W.contents writer.new) }
    ensures too_large { IsErrOf result BenchFault.TooLarge
        → (session.new ≡ session.old) × Keeps (W.contents writer.old) (W.contents writer.new)
        × IfSome (R.remaining reader.old) (λ octets. most_script < length octets) }

    // Memory is refused while the script is read, or for the octets of a line. What was written is known to the octet.
    ensures memory { IsErrOf result BenchFault.Memory
        → ((session.new ≡ session.old) × Keeps (W.contents writer.old) (W.contents writer.new))
        ⊎ ((script : List ℕ) × ReadsWhole (R.remaining reader.old) (R.remaining reader.new) script
        × StopsBeforeLine script session.old session.new (W.contents writer.old) (W.contents writer.new)) }
    ensures write { IsErrOf result BenchFault.Write → (script : List ℕ)
        × ReadsWhole (R.remaining reader.old) (R.remaining reader.new) script
        × FailsInLine script session.old session.new (W.contents writer.old) (W.contents writer.new) }
{
    let script = match read_script(alloc, reader) {
        Ok(script) => script,
        Err(ReadFault::Read) => return Err(BenchFault::Read),
        Err(ReadFault::TooLarge) => return Err(BenchFault::TooLarge),
        Err(ReadFault::Memory) => return Err(BenchFault::Memory),
    };
    let mut player = Player::new(alloc);
    run_lines(&mut player, writer, session, script.as_slice())
}

/// Plays each line of a script.
fn run_lines<W: Write, M: Acts>(
    player: &mut Player,
    writer: &mut W,
    session: &mut Session<M>,
    script: &[u8],
) -> Result<Summary, BenchFault>
    requires { length script.now ≤ most_script }
    ensures text { OnOk result (TakesNoMemory script.now
        → Appends (W.contents writer.old) (W.contents writer.new) (text script.now session.old)) }
    ensures full { OnOk result ((written : List ℕ)
        → Appends (W.contents writer.old) (W.contents writer.new) written → (SaysMemory written → ⊥)
        → Appends (W.contents writer.old) (W.contents writer.new) (text script.now session.old)) }
    ensures ok { IfOk result (Answers script.now session.old session.new
        (W.contents writer.old) (W.contents writer.new)) }
    ensures err { IfErr result (StopsInScript script.now session.old session.new
        (W.contents writer.old) (W.contents writer.new)) }
{
    let mut summary = Summary {
        lines: 0,
        bad: 0,
        refused: 0,
    };
    let mut rest = script;
    let mut number = 1;
    while !rest.is_empty() {
        let (line, behind) = next_line(rest);
        let outcome = player.play(writer, session, number, line)?;
        count(&mut summary, outcome);
        rest = behind;
        number += 1;
    }
    Ok(summary)
}
