//! A session at a console: each line is answered before the next one is asked for.
ghost use Rattle.std.specs.Prelude.{◌≡◌, [], IfOk, OnErr};
ghost use Rattle.em_console.specs.Serving.{Serves, within, halts};

use crate::console::Console;
use crate::fault::ConsoleFault;
use crate::reading::MOST_LINE;
use crate::session::{Answers, Flow};
use std::alloc::{AllocError, Global};

/// What is said of a line that is too long.
pub const LONG_LINE: &[u8] = b"a line has at most 65536 octets\n";

/// How serving ended, if nothing failed.
#[derive(Clone, Copy, PartialEq, Eq, Debug)]
pub enum End {
    /// No line came any more.
    Input,
    /// The session ended.
    Session,
}

/// Asks for lines and tells the session's answer to each, until no line comes any more or the session ends. A line that
/// is too long is refused, and the session never sees it.
///
/// Memory is taken for the longest line and the longest answer alone.
pub fn serve<C: Console, S: Answers>(
    alloc: Global,
    console: &mut C,
    session: &mut S,
) -> Result<End, ConsoleFault>
    ensures { Serves C.passes (within S.answers S.refuses) (halts S.stops) result console.old console.new
        session.old session.new }
{
    let mut line = Vec::new(alloc);
    let mut text = Vec::new(alloc);
    for lines in 0..u64::MAX {
        if !console.ask(&mut line)? {
            return Ok(End::Input);
        }
        text.clear();
        let Ok(flow) = answer_to(session, line.as_slice(), &mut text) else {
            return Err(ConsoleFault::Memory);
        };
        console.tell(text.as_slice())?;
        match flow {
            Flow::Goes => {}
            Flow::Ends => return Ok(End::Session),
        }
    }
    // No one types so many lines.
    Err(ConsoleFault::Read)
}

/// The session's answer to a line, or the refusal of a line that is too long.
fn answer_to<S: Answers>(
    session: &mut S,
    line: &[u8],
    text: &mut Vec<u8>,
) -> Result<Flow, AllocError>
    requires { text.old.items ≡ [] }
    ensures ok { IfOk result (λ flow. within S.answers S.refuses session.old line.now text.new.items flow session.new) }
    ensures err { OnErr result (halts S.stops session.old line.now session.new) }
{
    if line.len() > MOST_LINE {
        session.refuse(line, text)?;
        return Ok(Flow::Goes);
    }
    session.answer(line, text)
}
