//! The registers by the manual's names.
ghost use Rattle.std.specs.Prelude.{◌≡◌, ◌↔◌, IsTrue, IfSome};
ghost use Rattle.em_regs.specs.declared.reg.Reg.{Reg};
ghost use Rattle.em_regs.specs.Table.{IsRegOf};
ghost use Rattle.em_names.specs.Names.{begins_with_digit, name_of, IsNamed};

use arrayvec::ArrayString;
use em_regs::{Profile, Reg, SPACE};
use itoa::Buffer;

/// How many letters the longest name has: `VFTA[127]`.
pub const LONGEST: usize = 9;

/// How many octets a register has.
pub(crate) const WORD: u32 = 4;

/// The manual's name of a register (chapter on register descriptions). The registers of an array have
/// their index behind it: `MTA[5]`, `VFTA[127]`, `RAL0`, `RAH15`.
pub fn name(reg: Reg) -> ArrayString<LONGEST>
    ensures { result.bytes ≡ name_of reg }
{
    let mut name = ArrayString::new();
    name.push_str(reg.stem());
    let mut digits = Buffer::new();
    match reg {
        Reg::Mta(index) | Reg::Vfta(index) => {
            name.push('[');
            name.push_str(digits.format(index));
            name.push(']');
        }
        Reg::Ral(index) | Reg::Rah(index) => name.push_str(digits.format(index)),
        _ => {}
    }
    name
}

/// The register of the first profile that a word names, in either case of its letters; none where it is no name.
pub fn parse(word: &[u8]) -> Option<Reg>
    // what is found has the word as its name
    ensures some { IfSome result (λ reg. IsRegOf Profile.Table reg × IsNamed word.now reg) }
    // and each register is found by its name
    ensures every { (reg : Reg) → IsRegOf Profile.Table reg → IsNamed word.now reg → result ≡ Some reg }
{
    parse_in(Profile::Table, word)
}

/// The same, of a profile.
pub fn parse_in(profile: Profile, word: &[u8]) -> Option<Reg>
    ensures some { IfSome result (λ reg. IsRegOf profile reg × IsNamed word.now reg) }
    ensures every { (reg : Reg) → IsRegOf profile reg → IsNamed word.now reg → result ≡ Some reg }
{
    // (most words that name none are offsets)
    if begins_with_digit(word) {
        return None;
    }
    for index in 0..SPACE / WORD {
        if let Some(reg) = Reg::of_offset_in(profile, WORD * index) {
            if is_named(word, reg) {
                return Some(reg);
            }
        }
    }
    None
}

/// Whether a word begins with a digit, as no name does.
fn begins_with_digit(word: &[u8]) -> bool
    ensures { result ≡ begins_with_digit word.now }
{
    match word.first() {
        Some(first) => first.is_ascii_digit(),
        None => false,
    }
}

/// Whether a word is the register's name, in either case.
fn is_named(word: &[u8], reg: Reg) -> bool
    ensures { IsTrue result ↔ IsNamed word.now reg }
{
    let name = name(reg);
    word.eq_ignore_ascii_case(name.as_str().as_bytes())
}
