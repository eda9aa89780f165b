//! What is wrong with a line of a script.
ghost use Rattle.std.specs.Prelude.{◌≡◌, ◌<◌, ℕ, List, true, IfOk, OnOk, length};
ghost use Rattle.std.specs.Option.{option_map};
ghost use Rattle.std.specs.Io.KnownBytes.{Appends};
ghost use Rattle.em_prompt.specs.Prompt.{plain_wrong, prompted};
ghost use Rattle.em_prompt.specs.Scripted.{played};
ghost use Rattle.em_input.specs.Bad.{IsReason, IsToldWrong, IsWrong, has_no_form, is_bad};

use em_line::{is_line, parts_of};
use em_names::nearest_in;
use em_prompt::{Fault, Typed, Wrong, prompted, scripted, write_wrong};
use em_regs::{Profile, Reg};
use em_text::{WriteFailed, write_whole};
use std::alloc::{AllocError, Global};
use std::io::Write;

/// What is wrong with a line of a script for a machine of a profile, as a text without a newline; none where it is not bad.
pub fn wrong_in(alloc: Global, profile: Profile, line: &[u8]) -> Result<Option<Vec<u8>>, AllocError>
    requires { length line.now < 0xFFFF_FFFF }
    ensures { IfOk result (λ wrong. IsWrong profile line.now (option_map (λ text. text.items) wrong)) }
{
    let said = parts_of(line).said;
    if !is_bad(alloc, profile, said)? {
        return Ok(None);
    }
    let mut text = Vec::new(alloc);
    match write_reason(alloc, profile, &mut text, said) {
        Ok(()) => Ok(Some(text)),
        // A vector fails only where memory is refused.
        Err(_) => Err(AllocError),
    }
}

/// Whether em_bench reads neither a line that says this, nor what is played of it. Most lines it reads as they stand, which is
/// seen soonest, and takes no memory.
fn is_bad(alloc: Global, profile: Profile, said: &[u8]) -> Result<bool, AllocError>
    ensures { IfOk result (λ bad. bad ≡ is_bad profile said.now) }
{
    if is_line(said) {
        Ok(false)
    } else {
        plays_none(alloc, profile, said)
    }
}

/// Whether em_bench does not read what is played of a line that says this, and that it does not read as it stands.
fn plays_none(alloc: Global, profile: Profile, said: &[u8]) -> Result<bool, AllocError>
    requires { has_no_form said.now ≡ true }
    ensures { IfOk result (λ none. none ≡ has_no_form (played profile said.now)) }
{
    let Some(line) = scripted(profile, said) else {
        return Ok(true);
    };
    let mut text = Vec::new(alloc);
    if line.write(&mut text).is_err() {
        return Err(AllocError);
    }
    Ok(!is_line(text.as_slice()))
}

/// Writes what is wrong with a line that says this.
fn write_reason<W: Write>(
    alloc: Global,
    profile: Profile,
    writer: &mut W,
    said: &[u8],
) -> Result<(), WriteFailed>
    requires { length said.now < 0xFFFF_FFFF }
    ensures ok { OnOk result ((text : List ℕ) × Appends (W.contents writer.old) (W.contents writer.new) text
        × IsReason (prompted profile said.now) text) }
{
    match prompted(profile, said) {
        Ok(_) => write_whole(
            writer,
            b"it is typed into a debugger, and no line of a script",
        ),
        Err(wrong) => write_wrong_of(alloc, profile, writer, wrong),
    }
}

/// Writes what is wrong with the words of a line, and which registers may be meant, where one names none.
pub fn write_wrong_of<W: Write>(
    alloc: Global,
    profile: Profile,
    writer: &mut W,
    wrong: Wrong<'_>,
) -> Result<(), WriteFailed>
    ensures ok { OnOk result ((text : List ℕ) × Appends (W.contents writer.old) (W.contents writer.new) text
        × IsToldWrong (plain_wrong wrong.entry) text) }
{
    write_wrong(writer, wrong, near_of(alloc, profile, wrong))
}

/// The registers that may be meant, where a word should name one and does not.
fn near_of(alloc: Global, profile: Profile, wrong: Wrong<'_>) -> Option<[Reg; 3]> {
    match wrong {
        Wrong::Behind(_, Fault::NoRegister(word)) => nearest_in(alloc, profile, word).ok(),
        _ => None,
    }
}
