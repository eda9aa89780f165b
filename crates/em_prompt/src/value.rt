//! What a word writes, or what is wrong with it.
ghost use Rattle.std.specs.Prelude.{◌≡◌};
ghost use Rattle.em_prompt.specs.Fault.{plain as plain_fault};
ghost use Rattle.em_prompt.specs.Kept.{kept_text};
ghost use Rattle.em_prompt.specs.Value.{read_so, kept_so, offset_so, address_in, command_in, data_fault, data_in};
ghost use Rattle.em_prompt.specs.Value.{ethernet_in, frame_len_in, known_in, last_line_in, offset_in, shown_address_in, side_in, switch_in};
ghost use Rattle.em_prompt.specs.Value.{begins_with_letter, file_so, name_in, number_in, phy_word_so, target_in};
ghost use Rattle.em_prompt.specs.Value.{value_in, watch_in, watch_so, way_in, which_in};
ghost use Rattle.em_prompt.specs.declared.number.Number.TheVariants.{Word};
ghost use Rattle.em_prompt.specs.Word.{data_digits};
ghost use Rattle.std.specs.List.{list_all};
ghost use Rattle.std.specs.Char.{is_ascii_hexdigit};

use crate::bits::bits_of;
use crate::command::Command;
use crate::fault::Fault;
use crate::kept::Kept;
use crate::kind::{Choice, Kind};
use crate::number::Number;
use crate::register::{known, named};
use crate::typed::{Side, Target, Which};
use crate::watch::{Watch, watched};
use crate::word::{
    ADDRESS_DIGITS, address_digits, data_len, hex_address_in, hex_number_in, is_address, is_data,
};
use em_line::bare;
use em_phy::PhyWord;
use em_regs::{Profile, Reg};
use em_text::{decimal_number, is_name};

/// The most octets that LEN asks for.
const MOST_LEN: u32 = 32_768;

/// How many digits write an octet.
const DIGITS_OF_OCTET: usize = 2;

/// OFF as it is kept, and the register that lies there.
#[derive(Clone, Copy)]
pub(crate) struct Offset<'a> {
    pub(crate) kept: Kept<'a>,
    pub(crate) reg: Option<Reg>,
}

/// OFF: a register of a profile by its name, or any offset.
pub(crate) fn offset_in(profile: Profile, word: &[u8]) -> Result<Offset<'_>, Fault<'_>>
    ensures { offset_so result ≡ offset_in profile word.now }
{
    if let Some(reg) = named(profile, word) {
        return Ok(Offset {
            kept: Kept::Value(reg.offset()),
            reg: Some(reg),
        });
    }
    match hex_number_in(word) {
        Some(offset) => Ok(Offset {
            kept: Kept::Word(bare(word)),
            reg: Reg::of_offset_in(profile, offset),
        }),
        None => Err(Fault::NoRegister(word)),
    }
}

/// A register of a profile by its name, or an address in guest memory.
pub(crate) fn target_in(profile: Profile, word: &[u8]) -> Result<Target, Fault<'_>>
    ensures { read_so result ≡ target_in profile word.now }
{
    if let Some(reg) = named(profile, word) {
        return Ok(Target::Register(reg));
    }
    match hex_address_in(word) {
        Some(addr) => Ok(Target::Octet(addr)),
        None => Err(Fault::NoRegister(word)),
    }
}

/// VAL: a number, or names of bits of this register.
pub(crate) fn value_in<'a>(reg: Option<Reg>, word: &'a [u8]) -> Result<Kept<'a>, Fault<'a>>
    ensures { kept_so result ≡ value_in reg word.now }
{
    if hex_number_in(word).is_some() {
        return Ok(Kept::Word(bare(word)));
    }
    let Some(reg) = reg else {
        return Err(Fault::No(Kind::Value));
    };
    match bits_of(reg, word) {
        Ok(value) => Ok(Kept::Value(value)),
        Err(name) => Err(Fault::NoBit(name, reg)),
    }
}

/// A register of a profile, by its name or its offset.
pub(crate) fn known_in(profile: Profile, word: &[u8]) -> Result<Reg, Fault<'_>>
    ensures { read_so result ≡ known_in profile word.now }
{
    match known(profile, word) {
        Some(reg) => Ok(reg),
        None => Err(Fault::NoRegister(word)),
    }
}

/// ADDR as it is kept.
pub(crate) fn address_in(word: &[u8]) -> Result<Kept<'_>, Fault<'_>>
    ensures { kept_so result ≡ address_in word.now }
{
    match hex_address_in(word) {
        Some(_) => Ok(Kept::Word(bare(word))),
        None => Err(Fault::No(Kind::Address)),
    }
}

/// ADDR of what is shown.
pub(crate) fn shown_address_in(word: &[u8]) -> Result<u64, Fault<'_>>
    ensures { read_so result ≡ shown_address_in word.now }
{
    match hex_address_in(word) {
        Some(address) => Ok(address),
        None => Err(Fault::No(Kind::Address)),
    }
}

/// DATA: octets.
pub(crate) fn data_in(word: &[u8]) -> Result<Kept<'_>, Fault<'_>>
    ensures { kept_so result ≡ data_in word.now }
{
    if is_data(word) {
        Ok(data_kept(word))
    } else {
        Err(data_fault(word))
    }
}

/// The digits of DATA.
fn data_kept(word: &[u8]) -> Kept<'_>
    ensures { kept_text result ≡ data_digits word.now }
{
    if is_address(word) {
        Kept::Address(address_digits(word))
    } else {
        Kept::Word(word)
    }
}

/// What is wrong with DATA that is no octets: of an odd number of digits that number is told.
fn data_fault(word: &[u8]) -> Fault<'_>
    ensures { plain_fault result ≡ data_fault word.now }
{
    if word.len() % DIGITS_OF_OCTET == 1 && is_digits(word) {
        return Fault::OddDigits(word.len());
    }
    Fault::No(Kind::Data)
}

/// Whether each octet of a word is a hexadecimal digit.
fn is_digits(word: &[u8]) -> bool
    ensures { result ≡ list_all is_ascii_hexdigit word.now }
{
    word.iter().all(|octet| octet.is_ascii_hexdigit())
}

/// DATA of 6 octets.
pub(crate) fn ethernet_in(word: &[u8]) -> Result<Kept<'_>, Fault<'_>>
    ensures { kept_so result ≡ ethernet_in word.now }
{
    if data_len(word) == ADDRESS_DIGITS && is_data(word) {
        Ok(data_kept(word))
    } else {
        Err(Fault::No(Kind::Ethernet))
    }
}

/// LEN behind DATA: at most 32,768, and not below DATA's octets.
pub(crate) fn frame_len_in<'a>(before: &[u8], word: &'a [u8]) -> Result<Kept<'a>, Fault<'a>>
    ensures { kept_so result ≡ frame_len_in before.now word.now }
{
    match decimal_number(word) {
        Some(len) if data_len(before) / DIGITS_OF_OCTET <= len as usize && len <= MOST_LEN => {
            Ok(Kept::Word(word))
        }
        _ => Err(Fault::No(Kind::FrameLen)),
    }
}

/// The last of several lines, of which this is the first.
pub(crate) fn last_line_in<'a>(line: u32, word: &'a [u8]) -> Result<u32, Fault<'a>>
    ensures { read_so result ≡ last_line_in line word.now }
{
    match decimal_number(word) {
        Some(last) if line <= last && last <= Number::Line.most() => Ok(last),
        _ => Err(Fault::No(Kind::LastLine)),
    }
}

/// The word of the PHY whose number a word writes.
pub(crate) fn phy_word_in(word: &[u8]) -> Result<PhyWord, Fault<'_>>
    ensures { phy_word_so result ≡ number_in Word word.now }
{
    let number = Number::Word.of(word)?;
    match PhyWord::new(number as u8) {
        Some(word) => Ok(word),
        None => unreachable!(),
    }
}

/// WATCH in one word.
pub(crate) fn watch_in(profile: Profile, word: &[u8]) -> Result<Watch, Fault<'_>>
    ensures { watch_so result ≡ watch_in profile word.now }
{
    match watched(profile, word) {
        Some(watch) => Ok(watch),
        None => Err(Fault::NoRegister(word)),
    }
}

/// The name of a command.
pub(crate) fn command_in(word: &[u8]) -> Result<Command, Fault<'_>>
    ensures { read_so result ≡ command_in word.now }
{
    match Command::meant(word) {
        Some(command) => Ok(command),
        None => Err(Fault::NoCommand(word)),
    }
}

/// The name of a place.
pub(crate) fn name_in(word: &[u8]) -> Result<&[u8], Fault<'_>>
    ensures { file_so result ≡ name_in word.now }
{
    if begins_with_letter(word) {
        Ok(word)
    } else {
        Err(Fault::No(Kind::Name))
    }
}

/// Whether a word begins with a letter.
pub(crate) fn begins_with_letter(word: &[u8]) -> bool
    ensures { result ≡ begins_with_letter word.now }
{
    match word {
        [first, ..] => first.is_ascii_alphabetic(),
        [] => false,
    }
}

/// `up` or `down`, as it is kept.
pub(crate) fn way_in(word: &[u8]) -> Result<Kept<'_>, Fault<'_>>
    ensures { kept_so result ≡ way_in word.now }
{
    if is_name(word, b"up") || is_name(word, b"down") {
        Ok(Kept::Word(word))
    } else {
        Err(Fault::No(Kind::Choice(Choice::Way)))
    }
}

/// `rx` or `tx`.
pub(crate) fn side_in(word: &[u8]) -> Result<Side, Fault<'_>>
    ensures { read_so result ≡ side_in word.now }
{
    if is_name(word, b"rx") {
        return Ok(Side::Receive);
    }
    if is_name(word, b"tx") {
        return Ok(Side::Transmit);
    }
    Err(Fault::No(Kind::Choice(Choice::Side)))
}

/// `again` or `all`.
pub(crate) fn which_in(word: &[u8]) -> Result<Which, Fault<'_>>
    ensures { read_so result ≡ which_in word.now }
{
    if is_name(word, b"again") {
        return Ok(Which::Again);
    }
    if is_name(word, b"all") {
        return Ok(Which::All);
    }
    Err(Fault::No(Kind::Choice(Choice::More)))
}

/// `on` or `off`.
pub(crate) fn switch_in(word: &[u8]) -> Result<bool, Fault<'_>>
    ensures { read_so result ≡ switch_in word.now }
{
    if is_name(word, b"on") {
        return Ok(true);
    }
    if is_name(word, b"off") {
        return Ok(false);
    }
    Err(Fault::No(Kind::Choice(Choice::Switch)))
}
