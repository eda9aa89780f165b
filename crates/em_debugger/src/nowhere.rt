//! What is said where a line that was typed accesses no register.
ghost use Rattle.std.specs.Prelude.{◌≡◌, ℕ, List, OnOk, IfSome, map, true};
ghost use Rattle.std.specs.Char.{to_ascii_uppercase};
ghost use Rattle.std.specs.Io.KnownBytes.{Appends};
ghost use Rattle.em_text.specs.Words.{words_of};
ghost use Rattle.em_text.specs.Writer.{Writes};
ghost use Rattle.em_prompt.specs.Nowhere.{is_meant, nowhere_said};
ghost use Rattle.em_debugger.specs.Nowhere.{TellsNowhere, meant_text, near_text, nowhere_text};

use em_inspect::write_address;
use em_names::{nearest_in, write_name};
use em_prompt::{meant, nowhere_said};
use em_regs::{Profile, Reg};
use em_text::{WriteFailed, write_whole};
use std::alloc::Global;
use std::io::Write;

/// Says so where a line accesses no register and is answered all the same, and which register may be meant. The answer does not
/// tell: a read gives 0, as that of many a register does.
pub(crate) fn tell_nowhere<W: Write>(
    alloc: Global,
    profile: Profile,
    writer: &mut W,
    said: &[u8],
) -> Result<(), WriteFailed>
    ensures ok { OnOk result ((text : List ℕ) × Appends (W.contents writer.old) (W.contents writer.new) text
        × TellsNowhere (nowhere_said profile (words_of said.now)) text) }
{
    match nowhere_said(profile, said) {
        None => Ok(()),
        Some(nowhere) => {
            let meant = meant_by(alloc, profile, nowhere.word);
            write_nowhere(writer, nowhere.offset, meant)
        }
    }
}

/// The register that digits may mean; none where memory is refused.
fn meant_by(alloc: Global, profile: Profile, word: &[u8]) -> Option<Reg>
    ensures { IfSome result (λ reg. is_meant (map to_ascii_uppercase word.now) reg ≡ true) }
{
    let near = nearest_in(alloc, profile, word).ok()?;
    meant_in(alloc, word, near)
}

/// The first of these that digits may mean, in either case; none where memory is refused.
fn meant_in(alloc: Global, word: &[u8], near: [Reg; 3]) -> Option<Reg>
    ensures { IfSome result (λ reg. is_meant (map to_ascii_uppercase word.now) reg ≡ true) }
{
    match word.to_ascii_uppercase(alloc) {
        Ok(letters) => meant_of(letters.as_slice(), near),
        Err(_) => None,
    }
}

/// The first of these that letters may mean.
fn meant_of(letters: &[u8], near: [Reg; 3]) -> Option<Reg>
    ensures { IfSome result (λ reg. is_meant letters.now reg ≡ true) }
{
    meant(letters, near)
}

/// Writes that no register lies at an offset, and which one may be meant.
fn write_nowhere<W: Write>(
    writer: &mut W,
    offset: u32,
    meant: Option<Reg>,
) -> Result<(), WriteFailed>
    ensures writes { Writes (W.contents writer.old) (W.contents writer.new) result (nowhere_text offset meant) }
{
    write_whole(writer, b"no register lies at ")?;
    write_address(writer, u128::from(offset))?;
    write_meant(writer, meant)?;
    write_whole(writer, b"\n")
}

/// Writes which register may be meant.
fn write_meant<W: Write>(writer: &mut W, meant: Option<Reg>) -> Result<(), WriteFailed>
    ensures writes { Writes (W.contents writer.old) (W.contents writer.new) result (meant_text meant) }
{
    match meant {
        None => Ok(()),
        Some(reg) => write_near(writer, reg),
    }
}

fn write_near<W: Write>(writer: &mut W, reg: Reg) -> Result<(), WriteFailed>
    ensures writes { Writes (W.contents writer.old) (W.contents writer.new) result (near_text reg) }
{
    write_whole(writer, b", near: ")?;
    write_name(writer, reg)
}
