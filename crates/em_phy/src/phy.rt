//! The words of the PHY, and MDIC.
ghost use Rattle.std.specs.Prelude.{◌≡◌, ◌<◌, ◌/◌, ◌%◌, ◌^◌};
ghost use Rattle.em_phy.specs.Phy.{after_write, answer, asks_for_interrupt, is_read_only, link_bits, put_word, read_word, start, stored, undone};
ghost use Rattle.em_phy.specs.Phy.{Fits, with_link, word_before};

use em_mem::Reversible;
use std::marker::Model;

/// How many words the PHY has.
pub const WORDS: usize = 32;

/// The PHY's own address.
const ADDRESS: u32 = 1;

/// DATA: bits 15 to 0.
const DATA: u32 = 0xFFFF;

/// Where REGADD begins, behind DATA.
const REGADD: u32 = 16;

/// Where PHYADD begins.
const PHYADD: u32 = 21;

/// The bits of REGADD and of PHYADD.
const FIVE_BITS: u32 = 31;

/// Where OP begins.
const OP: u32 = 26;

/// The bits of OP.
const TWO_BITS: u32 = 3;

/// OP 01b: a write.
const WRITE: u32 = 1;

/// OP 10b: a read.
const READ: u32 = 2;

/// What of a write is kept: DATA, REGADD, PHYADD, OP and I.
const KEPT: u32 = 0x2FFF_FFFF;

/// R, ready: bit 28.
const R: u32 = 0x1000_0000;

/// I, that MDAC is to be raised: bit 29.
const I: u32 = 29;

/// E, that no such PHY is there: bit 30.
const E: u32 = 0x4000_0000;

/// What control (word 0) stores: reset (15) and restart of negotiation (9) clear themselves.
const CONTROL_BITS: u16 = 0x7DFF;

/// MDIC, and the words of the PHY, those that follow the link as they are without one.
#[derive(Drop)]
pub struct Phy {
    mdic: u32,
    words: [u16; WORDS],
}

impl Model for Phy {
    ghost use Rattle.em_phy.specs.Phy.{State};

    ghost Value = { State };

    ghost view = { λ p. record { mdic = p.mdic; words = p.words } };
}

/// MDIC before a write, and the word that the write named.
#[derive(Drop)]
pub struct PhyUndo {
    mdic: u32,
    reg: u8,
    old: u16,
}

impl Model for PhyUndo {
    ghost use Rattle.std.specs.Prelude.{◌<◌};
    ghost use Rattle.em_phy.specs.Phy.{Old};

    ghost Value = { Old };

    ghost view = { λ u. record { mdic = u.mdic; reg = u.reg; old = u.old } };

    ghost invariant = { λ u. u.reg < 32 };
}

impl PhyUndo {
    /// The same once more.
    pub fn copy(&self) -> PhyUndo
        ensures { result ≡ self.now }
    {
        PhyUndo {
            mdic: self.mdic,
            reg: self.reg,
            old: self.old,
        }
    }

    /// What MDIC was.
    pub fn mdic(&self) -> u32
        ensures { result ≡ self.now.mdic }
    {
        self.mdic
    }

    /// What a word was without a link, where it is `now`.
    pub fn word_before(&self, reg: u8, now: u16) -> u16
        ensures { result ≡ word_before self.now reg now }
    {
        if reg == self.reg { self.old } else { now }
    }
}

impl Phy {
    /// The words as they are at power on (QEMU's e1000 has the same), and MDIC 0.
    pub fn new() -> Phy
        ensures { result ≡ start }
    {
        let mut words = [0; WORDS];
        words[0] = 0x1140;
        words[1] = 0x7949;
        words[2] = 0x0141;
        words[3] = 0x0C20;
        words[4] = 0x0DE1;
        words[5] = 0x01E0;
        words[9] = 0x0E00;
        words[10] = 0x3C00;
        words[16] = 0x0360;
        words[17] = 0xA800;
        words[20] = 0x0D60;
        Phy { mdic: 0, words }
    }

    /// A PHY of which MDIC reads so, with these words, those that follow the link as they are without one.
    pub fn of_words(mdic: u32, words: [u16; WORDS]) -> Phy
        ensures { result ≡ record { mdic = mdic; words = words } }
    {
        Phy { mdic, words }
    }

    /// All words, those that follow the link as they are without one.
    pub fn words(&self) -> &[u16; WORDS]
        ensures { result.now ≡ self.now.words }
    {
        &self.words
    }

    /// The same PHY once more.
    pub fn copy(&self) -> Phy
        ensures { result ≡ self.now }
    {
        Phy {
            mdic: self.mdic,
            words: self.words,
        }
    }

    /// MDIC as it is read.
    pub fn read(&self) -> u32
        ensures { result ≡ self.now.mdic }
    {
        self.mdic
    }

    /// A write of MDIC, with the link up or down.
    pub fn write(&mut self, link: bool, value: u32) -> PhyUndo
        ensures state { self.new ≡ after_write self.old link value }
        ensures fits { Fits self.new result }
        ensures undo { undone self.new result ≡ self.old }
    {
        let reg = register_address(value);
        let undo = PhyUndo {
            mdic: self.mdic,
            reg,
            old: self.words[usize::from(reg)],
        };
        self.mdic = self.answer(link, value);
        self.store(value);
        undo
    }

    /// Stores what a command writes, if it does.
    fn store(&mut self, value: u32)
        ensures { self.new ≡ record self.old { words = stored self.old.words value } }
    {
        if phy_address(value) == ADDRESS && operation(value) == WRITE {
            self.put_word(register_address(value), (value & DATA) as u16);
        }
    }

    /// MDIC after a write.
    fn answer(&self, link: bool, value: u32) -> u32
        ensures { result ≡ answer self.now link value }
    {
        let kept = value & KEPT;
        if phy_address(value) != ADDRESS {
            return kept + (R + E);
        }
        if operation(value) != READ {
            return kept + R;
        }
        let word = self.word(link, register_address(value));
        (kept >> REGADD << REGADD) + u32::from(word) + R
    }

    /// What a read of a word gives, with the link up or down.
    pub fn word(&self, link: bool, reg: u8) -> u16
        requires { reg < 32 }
        ensures { result ≡ read_word self.now.words link reg }
    {
        word_as_read(link, reg, self.words[usize::from(reg)])
    }

    /// Stores a word, or the bits of it that are kept.
    fn put_word(&mut self, reg: u8, value: u16)
        requires { reg < 32 }
        ensures { self.new ≡ record self.old { words = put_word self.old.words reg value } }
    {
        if is_read_only(reg) {
            return;
        }
        let kept = if reg == 0 {
            value & CONTROL_BITS
        } else {
            value
        };
        self.words[usize::from(reg)] = kept;
    }
}

impl Reversible for Phy {
    type Undo = PhyUndo;

    ghost use Rattle.em_phy.specs.Phy.{Fits, undone};

    ghost fits = { Fits };

    ghost undone = { undone };

    fn take_back(&mut self, undo: PhyUndo) {
        self.mdic = undo.mdic;
        self.words[usize::from(undo.reg)] = undo.old;
    }
}

/// A word as it is read with the link up or down, by what it is without a link.
pub fn word_as_read(link: bool, reg: u8, word: u16) -> u16
    ensures { result ≡ with_link link reg word }
{
    if link { word | link_bits(reg) } else { word }
}

/// REGADD.
fn register_address(value: u32) -> u8
    ensures value { result ≡ value / 2 ^ 16 % 32 }
    ensures small { result < 32 }
{
    (value >> REGADD & FIVE_BITS) as u8
}

/// Whether a command asks for an interrupt, which is its caller's to raise.
pub fn asks_for_interrupt(value: u32) -> bool
    ensures { result ≡ asks_for_interrupt value }
{
    value >> I & 1 == 1
}

/// PHYADD.
fn phy_address(value: u32) -> u32
    ensures { result ≡ value / 2 ^ 21 % 32 }
{
    value >> PHYADD & FIVE_BITS
}

/// OP.
fn operation(value: u32) -> u32
    ensures { result ≡ value / 2 ^ 26 % 4 }
{
    value >> OP & TWO_BITS
}

/// Whether software can't write a word: status (1), the identifiers (2, 3) and the part's own status (17).
fn is_read_only(reg: u8) -> bool
    ensures { result ≡ is_read_only reg }
{
    matches!(reg, 1 | 2 | 3 | 17)
}

/// The bits of a word that are 1 while there is a link.
fn link_bits(reg: u8) -> u16
    ensures { result ≡ link_bits reg }
{
    match reg {
        1 => 0x0024,
        17 => 0x0400,
        _ => 0,
    }
}
