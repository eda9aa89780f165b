//! What a line says that somebody types, or what is wrong with it.
ghost use Rattle.std.specs.Prelude.{◌≡◌, ◌<◌, length};
ghost use Rattle.em_text.specs.Words.{words_of};
ghost use Rattle.em_prompt.specs.Prompt.{plain, command_line, named_line, prompted};

use crate::command::Command;
use crate::says::says;
use crate::told::{first_word, told};
use crate::typed::Typed;
use crate::wrong::Wrong;
use em_regs::Profile;
use em_text::Words;

/// What a line says, or what is wrong with it, where a register is one of this profile. A line without a word says nothing,
/// and so does a comment.
#[tactic(auto, unfolding(crate::specs::Prompt::prompted))]
pub fn prompted(profile: Profile, line: &[u8]) -> Result<Typed<'_>, Wrong<'_>>
    requires { length line.now < 0xFFFF_FFFF }
    ensures { plain result ≡ prompted profile line.now }
{
    let (name, rest) = first_word(told(line));
    named_line(profile, name, rest)
}

/// What a line says that has this first word.
fn named_line<'a>(profile: Profile, name: &'a [u8], rest: &'a [u8]) -> Result<Typed<'a>, Wrong<'a>>
    requires { length rest.now < 0xFFFF_FFFF }
    ensures { plain result ≡ named_line profile name.now rest.now }
{
    if name.is_empty() {
        return Ok(Typed::Silent);
    }
    match Command::meant(name) {
        Some(command) => command_line(profile, command, rest),
        None => Err(Wrong::Unknown(name)),
    }
}

/// What a command says with what stands behind its name.
fn command_line(profile: Profile, command: Command, rest: &[u8]) -> Result<Typed<'_>, Wrong<'_>>
    requires { length rest.now < 0xFFFF_FFFF }
    ensures { plain result ≡ command_line profile command rest.now }
{
    match says(profile, command, Words(rest)) {
        Ok(said) => Ok(said),
        Err(fault) => Err(Wrong::Behind(command, fault)),
    }
}
