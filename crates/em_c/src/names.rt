//! The manual's names of the registers, of either profile: no machine is asked.
ghost use Rattle.std.specs.Prelude.{◌≡◌};
ghost use Rattle.em_regs.specs.declared.reg.Reg.{Reg};
ghost use Rattle.em_regs.specs.Table.{IsRegOf};
ghost use Rattle.em_names.specs.Names.{IsNamed};
ghost use Rattle.em_c.specs.Refused.{number, number_of, told, Shows};
ghost use Rattle.em_c.specs.Looks.{text_into, length_of};
ghost use Rattle.em_c.specs.Names.{name_at, Finds};

use crate::refused::{Refused, number, tell};
use crate::room::lay_text;
use em_regs::{Profile, Reg};

/// The name of the register at an offset, and a zero octet behind it; how many octets it has is told also where there is no room for it.
#[unsafe(no_mangle)]
pub extern "C" fn em_name(offset: u32, out: &mut [u8], octets: &mut usize) -> u32
    ensures name { Shows (text_into out.old (name_at offset)) out.old result out.new }
    ensures octets { octets.new ≡ told octets.old (length_of (name_at offset)) }
{
    match Reg::of_offset_in(Profile::Adapter, offset) {
        Some(reg) => number(lay_text(em_names::name(reg).as_str().as_bytes(), out, octets)),
        None => Refused::NoRegister.number(),
    }
}

/// The offset of the register that a word names, in either case of its letters.
#[unsafe(no_mangle)]
pub extern "C" fn em_find(word: &[u8], offset: &mut u32) -> u32
    ensures found { Finds word.now offset.old result offset.new }
    // each register is found by its name
    ensures every { (reg : Reg) → IsRegOf Profile.Adapter reg → IsNamed word.now reg → result ≡ 0 }
{
    match em_names::parse_in(Profile::Adapter, word) {
        Some(reg) => tell(Ok(reg.offset()), offset),
        None => Refused::NoName.number(),
    }
}
