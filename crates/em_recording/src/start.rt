//! What a record begins with.
ghost use Rattle.std.specs.Prelude.{◌≡◌, ◌<◌};
ghost use Rattle.em_text.specs.Writer.{Writes};
ghost use Rattle.em_recording.specs.StartText.{named_text, settings_end, settings_text, start_text, word_text};

use em_journal::{Machine, Settings};
use em_json::{write_hex, write_number};
use em_names::write_name;
use em_regs::{Profile, Reg, SPACE};
use em_text::{WriteFailed, write_whole};
use std::io::Write;

/// How many octets lie between one register's offset and the next.
const WORD: u32 = 4;

/// How many words the registers take, with what lies between them.
const WORDS: u32 = SPACE / WORD;

/// Writes what a machine is made of.
pub fn write_settings<W: Write>(writer: &mut W, settings: &Settings) -> Result<(), WriteFailed>
    ensures writes { Writes (W.contents writer.old) (W.contents writer.new) result (settings_text settings.now) }
{
    write_number(writer, b"\"settings\":{\"base\":", settings.base)?;
    write_number(writer, b",\"memory\":", settings.memory)?;
    write_number(writer, b",\"budget\":", settings.budget)?;
    write_hex(writer, b",\"mac\":", &settings.mac)?;
    write_whole(writer, settings_end(settings.profile))
}

/// What stands behind the address: the profile, where it is not the first, and the end.
fn settings_end(profile: Profile) -> &'static [u8]
    ensures { result.now ≡ settings_end profile }
{
    match profile {
        Profile::Table => b"},",
        Profile::Adapter => b",\"profile\":\"adapter\"},",
    }
}

/// Writes each register's value as a look shows it, by offset.
pub fn write_start<W: Write>(writer: &mut W, machine: &Machine) -> Result<(), WriteFailed>
    ensures writes { Writes (W.contents writer.old) (W.contents writer.new) result (start_text machine.now.present) }
{
    let ctrl = machine.look(Reg::Ctrl.offset()).unwrap_or(0);
    write_value(writer, b"\"start\":{\"registers\":{\"", Reg::Ctrl, ctrl)?;
    for word in 1..WORDS {
        write_word(writer, machine, word)?;
    }
    write_whole(writer, b"}}}\n")
}

/// Writes the register of a word behind others, if one lies there.
fn write_word<W: Write>(writer: &mut W, machine: &Machine, word: u32) -> Result<(), WriteFailed>
    requires { word < 0x1800 }
    ensures writes { Writes (W.contents writer.old) (W.contents writer.new) result
        (word_text machine.now.present word) }
{
    let offset = WORD * word;
    match Reg::of_offset_in(machine.profile(), offset) {
        Some(reg) => write_value(writer, b",\"", reg, machine.look(offset).unwrap_or(0)),
        None => Ok(()),
    }
}

/// Writes a value under a register's name behind a text.
fn write_value<W: Write>(
    writer: &mut W,
    before: &[u8],
    reg: Reg,
    value: u32,
) -> Result<(), WriteFailed>
    ensures writes { Writes (W.contents writer.old) (W.contents writer.new) result (named_text before.now reg value) }
{
    write_whole(writer, before)?;
    write_name(writer, reg)?;
    write_number(writer, b"\":", u64::from(value))
}
