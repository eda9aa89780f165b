//! Playing lines one by one, for who has them one by one.
ghost use Rattle.std.specs.Prelude.{◌≡◌, ◌⊎◌, ◌<◌, length, IfOk, IfErr, IsErrOf, IsTrue, Ok, Err};
ghost use Rattle.em_line.specs.Grammar.{parsed_line};
ghost use Rattle.em_line.specs.ParsedLine.{brings_octets};
ghost use Rattle.em_script.specs.Reply.{Performs};

use crate::fault::BenchFault;
use crate::outcome::Outcome;
use crate::session::Session;
use em_journal::Acts;
use em_line::MOST_PEEK;
use em_text::WriteFailed;
use std::alloc::Global;
use std::io::Write;

/// Plays lines over a session, and keeps the room for what one line says and shows, so that it is
/// made once.
#[derive(Drop)]
pub struct Player {
    pub(crate) alloc: Global,
    // the octets that a line brings
    pub(crate) data_buffer: Vec<u8>,
    // those of guest memory that a line shows
    pub(crate) peek_buffer: [u8; MOST_PEEK],
}

impl Player {
    /// A player that has taken no memory yet.
    pub fn new(alloc: Global) -> Player {
        Player {
            alloc,
            data_buffer: Vec::new(alloc),
            peek_buffer: [0u8; MOST_PEEK],
        }
    }

    /// Does what the line of this number says, and writes its answer, as `run` does it with each line
    /// of a script.
    ///
    /// It fails as `Write` where the writer fails, and what the line did stands; and as `Memory` where
    /// memory is refused for the octets of the line: then nothing was done and nothing written.
    #[inline(always)]
    pub fn play<W: Write, M: Acts>(
        &mut self,
        writer: &mut W,
        session: &mut Session<M>,
        number: u32,
        line: &[u8],
    ) -> Result<Outcome, BenchFault>
        requires { length line.now < 0xFFFF_FFFF }
        ensures ok { IfOk result (λ outcome. Performs number (parsed_line line.now)
            session.old session.new (W.contents writer.old) (W.contents writer.new) (Ok outcome)) }
        ensures write { IsErrOf result BenchFault.Write → (failed : WriteFailed)
            × Performs number (parsed_line line.now)
            session.old session.new (W.contents writer.old) (W.contents writer.new) (Err failed) }
        ensures memory { IsErrOf result BenchFault.Memory → IsTrue (brings_octets (parsed_line line.now))
            × (session.new ≡ session.old) × (W.contents writer.new ≡ W.contents writer.old) }
        ensures only { IfErr result (λ fault. (fault ≡ BenchFault.Write) ⊎ (fault ≡ BenchFault.Memory)) }
    {
        let Ok(played) = self.play_line(writer, session, number, line) else {
            return Err(BenchFault::Memory);
        };
        match played {
            Ok(outcome) => Ok(outcome),
            Err(WriteFailed) => Err(BenchFault::Write),
        }
    }
}
