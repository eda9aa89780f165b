//! Writing every register that is not zero.
ghost use Rattle.std.specs.Prelude.{◌≡◌, ◌/◌, ◌%◌, ◌<◌};
ghost use Rattle.em_text.specs.Writer.{Writes};
ghost use Rattle.em_output.specs.Registers.{word_text, registers_text};

use em_journal::Machine;
use em_regs::Reg;
use em_text::{WriteFailed, write_register_line};
use std::io::Write;

/// How many octets a word of the registers' space has.
const WORD: u32 = 4;

/// Writes a line for each register that `look` gives as not zero, by offset.
pub fn write_registers<W: Write>(writer: &mut W, machine: &Machine) -> Result<(), WriteFailed>
    ensures writes { Writes (W.contents writer.old) (W.contents writer.new) result
        (registers_text machine.now.present) }
{
    let mut from = 0;
    while let Some(offset) = Reg::next_page_with_registers(from) {
        write_register(writer, machine, offset)?;
        from = offset + WORD;
    }
    Ok(())
}

/// Writes the line of the register at an offset, if it has one.
fn write_register<W: Write>(
    writer: &mut W,
    machine: &Machine,
    offset: u32,
) -> Result<(), WriteFailed>
    requires within { offset < 0x06000 }
    requires whole { offset % 4 ≡ 0 }
    ensures writes { Writes (W.contents writer.old) (W.contents writer.new) result
        (word_text machine.now.present (offset / 4)) }
{
    let value = machine.look(offset).unwrap_or(0);
    if value == 0 {
        return Ok(());
    }
    write_register_line(writer, offset, value)
}
