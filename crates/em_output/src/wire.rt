//! Writing the frames that were sent.
ghost use Rattle.em_text.specs.Writer.{Writes};
ghost use Rattle.em_output.specs.Wire.{wire_text, frames_text};

use em_journal::Machine;
use em_text::{WriteFailed, write_number_line, write_octets_line};
use std::io::Write;

/// Writes how many frames the wire has, and then the octets of each on a line of its own, the first
/// one first.
pub fn write_wire<W: Write>(writer: &mut W, machine: &Machine) -> Result<(), WriteFailed>
    ensures writes { Writes (W.contents writer.old) (W.contents writer.new) result
        (wire_text machine.now.present.wire) }
{
    write_number_line(writer, b"wire ", machine.wire_len() as u64)?;
    write_frames(writer, machine)
}

/// Writes the octets of each frame on the wire on a line of its own.
fn write_frames<W: Write>(writer: &mut W, machine: &Machine) -> Result<(), WriteFailed>
    ensures writes { Writes (W.contents writer.old) (W.contents writer.new) result
        (frames_text machine.now.present.wire) }
{
    for index in 0..machine.wire_len() {
        let Some(frame) = machine.wire_frame(index) else {
            unreachable!();
        };
        write_octets_line(writer, frame)?;
    }
    Ok(())
}
