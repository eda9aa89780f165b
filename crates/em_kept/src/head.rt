//! What a kept run begins with.
ghost use Rattle.std.specs.Prelude.{◌≡◌, ◌<◌, ◌++◌};
ghost use Rattle.em_text.specs.Writer.{Writes, hex_text};
ghost use Rattle.em_eeprom.specs.Eeprom.{word_at};
ghost use Rattle.em_kept.specs.Head.{base_text, behind_budget, head_text, is_of_mac, mac_text, marked_base_text};
ghost use Rattle.em_kept.specs.Head.{marked_words_text, profile_and_mac_text, profile_text, same_below, settings_text};
ghost use Rattle.em_kept.specs.Head.{word_digits, words_from, words_line_text, words_text};

use crate::answer::write_numbers;
use crate::digits::{address_digits, word_digits};
use em_eeprom::Eeprom;
use em_regs::Profile;
use em_text::{WriteFailed, write_octets_line, write_pieces, write_whole};
use std::io::Write;

/// How many words an EEPROM has.
const WORDS: u8 = 64;

/// Writes what a machine was made of, as comments: the words of a command line that make it, and the EEPROM's words
/// where they are others than those that a command line gives it for this address.
pub fn write_head<W: Write>(
    writer: &mut W,
    profile: Profile,
    base: u64,
    memory: u64,
    budget: u64,
    eeprom: &Eeprom,
) -> Result<(), WriteFailed>
    ensures writes { Writes (W.contents writer.old) (W.contents writer.new) result
        (head_text profile base memory budget eeprom.now) }
{
    write_settings(writer, profile, base, memory, budget, eeprom.mac())?;
    write_words(writer, eeprom)
}

/// Writes the words of a command line.
fn write_settings<W: Write>(
    writer: &mut W,
    profile: Profile,
    base: u64,
    memory: u64,
    budget: u64,
    mac: [u8; 6],
) -> Result<(), WriteFailed>
    ensures writes { Writes (W.contents writer.old) (W.contents writer.new) result
        (settings_text profile base memory budget mac) }
{
    write_numbers(
        writer,
        b"# em_debug --memory ",
        memory,
        b" --budget ",
        budget,
    )?;
    write_behind_budget(writer, profile, base, mac)
}

/// Writes where memory begins, the profile, the address, and the end of the line.
fn write_behind_budget<W: Write>(
    writer: &mut W,
    profile: Profile,
    base: u64,
    mac: [u8; 6],
) -> Result<(), WriteFailed>
    ensures writes { Writes (W.contents writer.old) (W.contents writer.new) result (behind_budget profile base mac) }
{
    write_base(writer, base)?;
    write_profile_and_mac(writer, profile, mac)
}

/// Writes where memory begins, where that is not at address 0.
fn write_base<W: Write>(writer: &mut W, base: u64) -> Result<(), WriteFailed>
    ensures writes { Writes (W.contents writer.old) (W.contents writer.new) result (base_text base) }
{
    if base == 0 {
        return Ok(());
    }
    write_marked_base(writer, base)
}

/// Writes where memory begins.
fn write_marked_base<W: Write>(writer: &mut W, base: u64) -> Result<(), WriteFailed>
    ensures writes { Writes (W.contents writer.old) (W.contents writer.new) result (marked_base_text base) }
{
    write_pieces(writer, &[b" --base ", &address_digits(base)])
}

/// Writes the profile, the address, and the end of the line.
fn write_profile_and_mac<W: Write>(
    writer: &mut W,
    profile: Profile,
    mac: [u8; 6],
) -> Result<(), WriteFailed>
    ensures writes { Writes (W.contents writer.old) (W.contents writer.new) result (profile_and_mac_text profile mac) }
{
    write_profile(writer, profile)?;
    write_mac(writer, mac)
}

/// Writes the profile, where it is not the first.
fn write_profile<W: Write>(writer: &mut W, profile: Profile) -> Result<(), WriteFailed>
    ensures writes { Writes (W.contents writer.old) (W.contents writer.new) result (profile_text profile) }
{
    match profile {
        Profile::Table => Ok(()),
        Profile::Adapter => write_whole(writer, b" --profile adapter"),
    }
}

/// Writes the address, and the end of the line.
fn write_mac<W: Write>(writer: &mut W, mac: [u8; 6]) -> Result<(), WriteFailed>
    ensures writes { Writes (W.contents writer.old) (W.contents writer.new) result (mac_text mac) }
{
    write_whole(writer, b" --mac ")?;
    write_octets_line(writer, &mac)
}

/// Writes the words of an EEPROM, where they are others than those that a command line gives it for its address.
fn write_words<W: Write>(writer: &mut W, eeprom: &Eeprom) -> Result<(), WriteFailed>
    ensures writes { Writes (W.contents writer.old) (W.contents writer.new) result (words_text eeprom.now) }
{
    if is_of_mac(eeprom) {
        return Ok(());
    }
    write_marked_words(writer, eeprom)
}

/// Writes the line of an EEPROM's words.
fn write_marked_words<W: Write>(writer: &mut W, eeprom: &Eeprom) -> Result<(), WriteFailed>
    ensures writes { Writes (W.contents writer.old) (W.contents writer.new) result (marked_words_text eeprom.now) }
{
    write_whole(writer, b"# eeprom ")?;
    write_words_line(writer, eeprom)
}

/// Writes all words of an EEPROM, and the end of the line.
fn write_words_line<W: Write>(writer: &mut W, eeprom: &Eeprom) -> Result<(), WriteFailed>
    ensures writes { Writes (W.contents writer.old) (W.contents writer.new) result (words_line_text eeprom.now) }
{
    write_first_words(writer, eeprom, WORDS)?;
    write_whole(writer, b"\n")
}

/// Whether the words are those that a command line gives an EEPROM for its address.
fn is_of_mac(eeprom: &Eeprom) -> bool
    ensures { result ≡ is_of_mac eeprom.now }
{
    same_below(eeprom, &Eeprom::of_mac(eeprom.mac()), WORDS)
}

/// Whether two have the same first words.
#[tactic(auto, unfolding(crate::specs::Head::same_below))]
fn same_below(eeprom: &Eeprom, other: &Eeprom, count: u8) -> bool
    ensures { result ≡ same_below eeprom.now other.now count }
{
    (0..count).all(|at| eeprom.word(at) == other.word(at))
}

/// Writes the first words of an EEPROM.
fn write_first_words<W: Write>(
    writer: &mut W,
    eeprom: &Eeprom,
    count: u8,
) -> Result<(), WriteFailed>
    ensures writes { Writes (W.contents writer.old) (W.contents writer.new) result (words_from eeprom.now 0 count) }
{
    for at in 0..count {
        write_word(writer, eeprom, at)?;
    }
    Ok(())
}

/// Writes a word of an EEPROM in 4 digits.
fn write_word<W: Write>(writer: &mut W, eeprom: &Eeprom, at: u8) -> Result<(), WriteFailed>
    ensures writes { Writes (W.contents writer.old) (W.contents writer.new) result
        (word_digits (word_at eeprom.now at)) }
{
    write_whole(writer, &word_digits(eeprom.word(at)))
}
