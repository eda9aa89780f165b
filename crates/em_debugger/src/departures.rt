//! What the model knowingly does otherwise than a real adapter or QEMU's, by the register that shows it.
ghost use Rattle.std.specs.Prelude.{◌≡◌};
ghost use Rattle.em_text.specs.Writer.{Writes};
ghost use Rattle.em_debugger.specs.Departures.{counter_departure, departure_of, departure_text};

use em_regs::Reg;
use em_text::{WriteFailed, write_pieces};
use std::io::Write;

/// What is known of a register's differences; no text where its values are to agree. Source: this project's profile.
fn departure(reg: Reg) -> &'static [u8]
    ensures { result.now ≡ departure_of reg }
{
    match reg {
        Reg::Ctrl | Reg::Ledctl | Reg::Pba | Reg::Vet => b"after a reset it is 0 here",
        Reg::Status => b"FD, LU and SPEED alone are told here, and link lines alone set LU",
        Reg::Eerd => b"here the EEPROM holds the address and the sum alone, and answers at once",
        Reg::Eecd => b"QEMU grants without a request, and has other words in its EEPROM",
        Reg::Mdic => b"here a link is negotiated at once; QEMU takes half a second",
        Reg::CtrlExt
        | Reg::Fcal
        | Reg::Fcah
        | Reg::Fct
        | Reg::Fcttv
        | Reg::Tipg
        | Reg::Rxdctl
        | Reg::Tidv
        | Reg::Rxcsum => b"here it holds what was written; QEMU reads it as 0",
        Reg::Rdtr | Reg::Radv | Reg::Tadv | Reg::Itr => {
            b"here all 32 bits are stored; a real adapter has 16"
        }
        Reg::Rdbal | Reg::Tdbal => b"the low 4 bits are 0 here, as in the manual; QEMU stores them",
        Reg::Rah(_) => b"bits 30 to 18 are 0 here, as in the manual; QEMU stores them",
        Reg::Ics => b"it reads as 0 here",
        Reg::Icr => b"here engines make steps by rx and tx alone, and no PHY raises a cause",
        Reg::Ims => b"bits 31 to 17 are 0 here, as in the manual; QEMU stores them",
        Reg::Rdh | Reg::Tdh => b"here engines make steps by rx and tx alone",
        _ => counter_departure(reg),
    }
}

/// The same of a counter.
fn counter_departure(reg: Reg) -> &'static [u8]
    ensures { result.now ≡ counter_departure reg }
{
    match reg {
        Reg::Gptc
        | Reg::Gotcl
        | Reg::Gotch
        | Reg::Ptc64
        | Reg::Ptc127
        | Reg::Ptc255
        | Reg::Ptc511
        | Reg::Ptc1023
        | Reg::Ptc1522
        | Reg::Mptc
        | Reg::Bptc
        | Reg::Totl
        | Reg::Toth
        | Reg::Tpt => b"here engines make steps by rx and tx alone",
        Reg::Mpc
        | Reg::Prc64
        | Reg::Prc127
        | Reg::Prc255
        | Reg::Prc511
        | Reg::Prc1023
        | Reg::Prc1522
        | Reg::Gprc
        | Reg::Bprc
        | Reg::Mprc
        | Reg::Gorcl
        | Reg::Gorch
        | Reg::Rnbc
        | Reg::Ruc
        | Reg::Roc
        | Reg::Torl
        | Reg::Torh
        | Reg::Tpr => b"here frames arrive by arrive alone",
        _ => b"",
    }
}

/// Writes what is known of a register's differences, if anything is.
pub(crate) fn write_departure<W: Write>(writer: &mut W, reg: Reg) -> Result<(), WriteFailed>
    ensures writes { Writes (W.contents writer.old) (W.contents writer.new) result (departure_text reg) }
{
    let known = departure(reg);
    if known.is_empty() {
        return Ok(());
    }
    write_pieces(writer, &[b"known: ", known, b"\n"])
}
