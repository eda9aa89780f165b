//! The names of a descriptor's bits.
ghost use Rattle.std.specs.Prelude.{◌≡◌, ◌<◌};
ghost use Rattle.em_text.specs.Writer.{Writes};
ghost use Rattle.em_inspect.specs.Bits.{bits_text, named, rx_text, tx_text};

use crate::descriptor::Bits;
use em_text::{WriteFailed, write_pieces};
use std::io::Write;

/// Writes the names of the bits that are set, each behind a space; of a bit without a name its number.
pub(crate) fn write_bits<W: Write>(writer: &mut W, bits: Bits) -> Result<(), WriteFailed>
    ensures writes { Writes (W.contents writer.old) (W.contents writer.new) result (bits_text bits) }
{
    match bits {
        Bits::Rx { status, errors } => write_rx_bits(writer, status, errors),
        Bits::Tx { command, status } => write_tx_bits(writer, command, status),
    }
}

fn write_rx_bits<W: Write>(writer: &mut W, status: u8, errors: u8) -> Result<(), WriteFailed>
    ensures writes { Writes (W.contents writer.old) (W.contents writer.new) result (rx_text status errors) }
{
    write_pieces(
        writer,
        &[
            named(status, 0x01, b" DD"),
            named(status, 0x02, b" EOP"),
            named(status, 0x04, b" IXSM"),
            named(status, 0x08, b" VP"),
            named(status, 0x10, b" bit4"),
            named(status, 0x20, b" TCPCS"),
            named(status, 0x40, b" IPCS"),
            named(status, 0x80, b" PIF"),
            named(errors, 0x01, b" CE"),
            named(errors, 0x02, b" SE"),
            named(errors, 0x04, b" SEQ"),
            named(errors, 0x08, b" bit3"),
            named(errors, 0x10, b" CXE"),
            named(errors, 0x20, b" TCPE"),
            named(errors, 0x40, b" IPE"),
            named(errors, 0x80, b" RXE"),
        ],
    )
}

fn write_tx_bits<W: Write>(writer: &mut W, command: u8, status: u8) -> Result<(), WriteFailed>
    ensures writes { Writes (W.contents writer.old) (W.contents writer.new) result (tx_text command status) }
{
    write_pieces(
        writer,
        &[
            named(command, 0x01, b" EOP"),
            named(command, 0x02, b" IFCS"),
            named(command, 0x04, b" IC"),
            named(command, 0x08, b" RS"),
            named(command, 0x10, b" RPS"),
            named(command, 0x20, b" DEXT"),
            named(command, 0x40, b" VLE"),
            named(command, 0x80, b" IDE"),
            named(status, 0x01, b" DD"),
            named(status, 0x02, b" EC"),
            named(status, 0x04, b" LC"),
            named(status, 0x08, b" TU"),
            named(status, 0x10, b" bit4"),
            named(status, 0x20, b" bit5"),
            named(status, 0x40, b" bit6"),
            named(status, 0x80, b" bit7"),
        ],
    )
}

/// A bit's name, where it is set in an octet.
fn named(octet: u8, bit: u8, name: &'static [u8]) -> &'static [u8]
    requires { 0 < bit }
    ensures { result.now ≡ named octet bit name.now }
{
    if octet / bit % 2 == 1 { name } else { b"" }
}
