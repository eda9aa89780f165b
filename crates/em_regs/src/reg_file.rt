//! The registers that keep what software writes.
ghost use Rattle.std.specs.Prelude.{◌≡◌, ◌↔◌, ◌<◌, IsTrue, get_or, slice_index, Some, unwrap_or};
ghost use Rattle.std.specs.FinMap as map;
ghost use Rattle.em_regs.specs.Table.{offset_of, row_of};
ghost use Rattle.em_regs.specs.Storage.{Registers, offsets, words_at};
ghost use Rattle.em_regs.specs.RegFile.{at, IsStored, put, put_in, put_eerd, reset, zeroed, Fits, old_at, undo};
ghost use Rattle.em_regs.specs.RegFile.{after_reset, at_power_on, put_all, start_values};
ghost use Rattle.em_regs.specs.RegFile.{Reverses, words_of};

use crate::bits::{Eerd, Rah};
use crate::profile::Profile;
use crate::reg::Reg;
use crate::table::{Row, STORED_WORDS};
use bitflags::Flags;
use em_mem::Reversible;
use std::marker::Model;

/// The registers that keep what software writes: all of the table but STATUS, the interrupt
/// registers and the counters.
#[derive(Drop)]
pub struct RegFile {
    // each register's word at the place that its row of the table names
    words: [u32; STORED_WORDS],
}

impl Model for RegFile {
    ghost use Rattle.em_regs.specs.RegFile.{registers_code};
    ghost use Rattle.em_regs.specs.Storage.{Registers, offsets, words_at};

    ghost Value = { Registers };

    ghost coded = { registers_code };

    ghost view = { λ file. words_at offsets file.words };
}

/// What CTRL starts as in the second profile: SPEED 10b, SLU, and two pins that are driven high.
const CTRL_START: u32 = 0x0014_0240;

/// VET: the type of a frame with a VLAN tag.
const VET_START: u32 = 0x0000_8100;

/// LEDCTL: what the lights show.
const LEDCTL_START: u32 = 0x0000_0602;

/// MANC: what a management controller answers.
const MANC_START: u32 = 0x0022_2300;

/// PBA: 48 KiB for receiving, and 16 for sending.
const PBA_START: u32 = 0x0010_0030;

/// What a register held before it was written.
#[derive(Drop)]
pub struct RegUndo {
    // which word of the file keeps the register
    place: u16,
    old: u32,
}

impl Model for RegUndo {
    ghost use Rattle.std.specs.Prelude.{◌<◌, slice_index};
    ghost use Rattle.em_regs.specs.RegFile.{OldWord};
    ghost use Rattle.em_regs.specs.Storage.{offsets};
    ghost use Rattle.em_regs.specs.declared.table.TheConstants.{STORED_WORDS};

    ghost Value = { OldWord };

    ghost view = { λ u. record { at = slice_index offsets u.place; old = u.old } };

    ghost invariant = { λ u. u.place < STORED_WORDS };
}

impl RegUndo {
    /// The same once more.
    pub fn copy(&self) -> RegUndo
        ensures { result ≡ self.now }
    {
        RegUndo {
            place: self.place,
            old: self.old,
        }
    }

    /// What the register held.
    #[inline(always)]
    pub fn old(&self) -> u32
        ensures { result ≡ self.now.old }
    {
        self.old
    }

    /// What it puts back of a register; none where it is of another one, which then stays as it is.
    #[inline(always)]
    pub fn old_of(&self, reg: Reg) -> Option<u32>
        requires { IsStored reg }
        ensures old { result ≡ old_at self.now (offset_of reg) }
        ensures before { (m : Registers) → at (undo m self.now) (offset_of reg)
            ≡ unwrap_or result (at m (offset_of reg)) }
    {
        if usize::from(self.place) == place_of(reg) {
            Some(self.old)
        } else {
            None
        }
    }
}

impl RegFile {
    /// The registers at power on, with the Ethernet address as the first receive address.
    pub fn at_power_on(profile: Profile, mac: [u8; 6]) -> RegFile
        ensures { result ≡ at_power_on profile mac }
    {
        let mut file = RegFile {
            words: [0; STORED_WORDS],
        };
        file.start(profile, mac);
        file
    }

    /// The same registers once more.
    pub fn copy(&self) -> RegFile
        ensures { result ≡ self.now }
    {
        RegFile { words: self.words }
    }

    /// Registers with these words, each at the place that its register's row names.
    pub fn of_words(words: [u32; STORED_WORDS]) -> RegFile
        ensures { result ≡ words_at offsets words }
    {
        RegFile { words }
    }

    /// All words, each at the place that its register's row names.
    pub fn words(&self) -> &[u32; STORED_WORDS]
        ensures words { result.now ≡ words_of offsets self.now }
        ensures file { words_at offsets result.now ≡ self.now }
    {
        &self.words
    }

    /// Makes these the registers that a reset leaves of others. In the second profile PBA keeps what it held.
    pub fn reset_from(&mut self, others: &RegFile, profile: Profile, mac: [u8; 6])
        ensures { self.new ≡ after_reset profile others.now mac }
    {
        self.words = [0; STORED_WORDS];
        self.start(profile, mac);
        if matches!(profile, Profile::Adapter) {
            self.store(Reg::Pba, others.look(Reg::Pba));
        }
    }

    /// Gives the registers their start values.
    fn start(&mut self, profile: Profile, mac: [u8; 6])
        requires { self.old ≡ zeroed }
        ensures { self.new ≡ at_power_on profile mac }
    {
        self.set_address(mac);
        if matches!(profile, Profile::Adapter) {
            self.set_start_values();
        }
    }

    /// The start values of the second profile, beside the first receive address: those of QEMU's model (this project's
    /// profile).
    fn set_start_values(&mut self)
        ensures { self.new ≡ put_all self.old start_values }
    {
        self.store(Reg::Ctrl, CTRL_START);
        self.store(Reg::Vet, VET_START);
        self.store(Reg::Ledctl, LEDCTL_START);
        self.store(Reg::Manc, MANC_START);
        self.store(Reg::Pba, PBA_START);
    }

    /// Makes the Ethernet address the first receive address.
    fn set_address(&mut self, mac: [u8; 6])
        requires { self.old ≡ zeroed }
        ensures { self.new ≡ reset mac }
    {
        let low = u32::from_le_bytes([mac[0], mac[1], mac[2], mac[3]]);
        let high = u16::from_le_bytes([mac[4], mac[5]]);
        self.store(Reg::Ral(0), low);
        self.store(Reg::Rah(0), u32::from(high) + Rah::AV.bits());
    }

    /// Whether the file keeps the register.
    pub fn holds(&self, reg: Reg) -> bool
        ensures { IsTrue result ↔ IsStored reg }
    {
        let row = reg.row();
        row.kind.is_stored() && reg.index() < row.words
    }

    /// What a read of the register gives.
    #[inline(always)]
    pub fn look(&self, reg: Reg) -> u32
        requires { IsStored reg }
        ensures { result ≡ at self.now (offset_of reg) }
    {
        self.word(reg)
    }

    /// Writes a register: the bits of the value that its row of the table keeps are stored.
    #[inline(always)]
    pub fn put(&mut self, reg: Reg, value: u32) -> RegUndo
        requires { IsStored reg }
        ensures state { self.new ≡ put self.old reg value }
        ensures at { result.at ≡ offset_of reg }
        ensures reverses { Reverses self.old self.new result }
    {
        let row = reg.row();
        self.swap(place_in(row, reg) as u16, value & row.mask)
    }

    /// Writes a register as software does in a profile, which may keep fewer bits of the value.
    #[inline(always)]
    pub fn put_in(&mut self, profile: Profile, reg: Reg, value: u32) -> RegUndo
        requires { IsStored reg }
        ensures state { self.new ≡ put_in profile self.old reg value }
        ensures at { result.at ≡ offset_of reg }
        ensures reverses { Reverses self.old self.new result }
    {
        let row = reg.row();
        self.swap(place_in(row, reg) as u16, value & row.mask_in(profile))
    }

    /// Answers a write of EERD with START: the register then says DONE, the address and the word
    /// of the EEPROM at it.
    pub fn put_eerd(&mut self, address: u8, word: u16) -> RegUndo
        ensures state { self.new ≡ put_eerd self.old address word }
        ensures reverses { Reverses self.old self.new result }
    {
        let value = Eerd::DONE.bits() + 0x100 * u32::from(address) + 0x1_0000 * u32::from(word);
        self.replace(Reg::Eerd, value)
    }

    /// Puts back what a register held.
    #[inline(always)]
    pub fn restore(&mut self, reg: Reg, old: u32)
        requires { IsStored reg }
        ensures { self.new ≡ undo self.old (record { at = offset_of reg; old = old }) }
    {
        self.store(reg, old);
    }

    #[inline(always)]
    fn word(&self, reg: Reg) -> u32
        requires { IsStored reg }
        ensures { map.get self.now (offset_of reg) ≡ Some result }
    {
        self.words[place_of(reg)]
    }

    #[inline(always)]
    fn store(&mut self, reg: Reg, value: u32)
        requires { IsStored reg }
        ensures { self.new ≡ map.insert self.old (offset_of reg) value }
    {
        self.words[place_of(reg)] = value;
    }

    /// Stores a word, and keeps what it was.
    #[inline(always)]
    fn replace(&mut self, reg: Reg, value: u32) -> RegUndo
        requires { IsStored reg }
        ensures state { self.new ≡ map.insert self.old (offset_of reg) value }
        ensures at { result.at ≡ offset_of reg }
        ensures reverses { Reverses self.old self.new result }
    {
        self.swap(place_of(reg) as u16, value)
    }

    /// Stores the word at a place, and keeps what it was.
    #[inline(always)]
    fn swap(&mut self, place: u16, value: u32) -> RegUndo
        requires { place < STORED_WORDS }
        ensures state { self.new ≡ map.insert self.old (slice_index offsets place) value }
        ensures at { result.at ≡ slice_index offsets place }
        ensures reverses { Reverses self.old self.new result }
    {
        let old = std::mem::replace(&mut self.words[usize::from(place)], value);
        RegUndo { place, old }
    }
}

impl Reversible for RegFile {
    type Undo = RegUndo;

    ghost use Rattle.em_regs.specs.RegFile.{Fits, undo};

    ghost fits = { Fits };

    ghost undone = { undo };

    #[inline(always)]
    fn take_back(&mut self, undo: RegUndo) {
        let RegUndo { place, old } = undo;
        let _written = self.swap(place, old);
    }
}

/// Which word of a file keeps the register.
#[inline(always)]
fn place_of(reg: Reg) -> usize
    requires { IsStored reg }
    ensures within { result < STORED_WORDS }
    ensures place { get_or offsets result 0 ≡ offset_of reg }
{
    place_in(reg.row(), reg)
}

/// The same, by the register's row.
#[inline(always)]
fn place_in(row: &Row, reg: Reg) -> usize
    requires stored { IsStored reg }
    requires row { row.now ≡ row_of reg }
    ensures within { result < STORED_WORDS }
    ensures place { get_or offsets result 0 ≡ offset_of reg }
{
    row.place + usize::from(reg.index())
}
