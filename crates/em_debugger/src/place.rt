//! The place on a tape: lines by their numbers, from 1.
ghost use Rattle.std.specs.Prelude.{◌≡◌, ◌+◌, ◌≤◌, length};
ghost use Rattle.em_tape.specs.Tape.{HoldsTape};
ghost use Rattle.em_debugger.specs.Place.{events_of, line_here, text_of};

use em_tape::Tape;

/// The line where the place lies; 0 before the first.
pub(crate) fn line_here(tape: &Tape) -> usize
    ensures line { result ≡ line_here tape.now }
    ensures whole { tape.now.back ≡ 0 → result ≡ tape.now.whole }
    ensures performed { result ≤ length tape.now.did }
    ensures there { result ≤ length tape.now.lines }
{
    holds(tape);
    tape.line()
}

/// The line behind that where the place lies, which may not be there.
pub(crate) fn behind_here(tape: &Tape) -> usize
    ensures line { result ≡ line_here tape.now + 1 }
    ensures known { result ≤ length tape.now.did + 1 }
{
    holds(tape);
    line_here(tape) + 1
}

/// What holds of every tape holds of this one. Nothing is done: proofs ask for it.
pub(crate) fn holds(tape: &Tape)
    ensures { HoldsTape tape.now }
{
    let _machine = tape.machine();
}

/// The text of a line; of none that is there, no octet.
pub(crate) fn text_of(tape: &Tape, line: usize) -> &[u8]
    ensures { result.now ≡ text_of line tape.now }
{
    tape.text(line).unwrap_or_default()
}

/// How many events a line performed.
pub(crate) fn events_of(tape: &Tape, line: usize) -> u64
    requires { line ≤ length tape.now.did }
    ensures { result ≡ events_of line tape.now.did }
{
    tape.end_of(line)
        .saturating_sub(tape.end_of(line.saturating_sub(1)))
}
