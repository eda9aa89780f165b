//! The interrupt causes, their mask and the counters.
ghost use Rattle.std.specs.Prelude.{◌^◌, ◌≡◌, ◌≢◌, ◌+◌, ◌≤◌, ◌<◌, ◌↔◌, IsTrue, Some, slice_index};
ghost use Rattle.std.specs.FinMap as map;
ghost use Rattle.em_regs.specs.Table.{offset_of};
ghost use Rattle.em_regs.specs.Storage.{Registers, words_at};
ghost use Rattle.em_regs.specs.RegFile as registers;
ghost use Rattle.em_latch.specs.Storage.{offsets};
ghost use Rattle.em_latch.specs.Latches.{fresh, is_latched, IsLatched, IsWord, gives, after_read, after_write};
ghost use Rattle.em_latch.specs.Latches.{after_raise, after_pair_clear, IsAsserted, grown, shrink, undo, Reverses};
ghost use Rattle.em_latch.specs.Counter.{after_count, after_pair_count, octets_for_count};
ghost use Rattle.em_latch.specs.Undo.{octets_for, octets_of};

use crate::counter::Counter;
use crate::undo::{Growth, LatchUndo, MOST_OCTETS, WORDS};
use em_mem::Reversible;
use em_regs::{Kind, Reg};
use std::marker::Model;

/// The causes that ICS and IMS can set: bits 16 to 0 (this project's profile).
const CAUSE_BITS: u32 = 0x0001_FFFF;

/// The places of the causes, of their mask and of the first counter, as a growth names them.
const CAUSES: u8 = 0;

const MASK: u8 = 1;

const COUNTERS: u8 = 2;

/// How many values a word has: what the high half of a pair counts in.
const WORD_RANGE: u64 = 0x1_0000_0000;

/// The interrupt registers and the counters (manual, chapter on register descriptions).
#[derive(Drop)]
pub struct Latches {
    // the causes, their mask, and each counter's word behind them, at the place that its row names
    words: [u32; WORDS],
}

impl Model for Latches {
    ghost use Rattle.em_regs.specs.RegFile.{registers_code};
    ghost use Rattle.em_regs.specs.Storage.{Registers, words_at};
    ghost use Rattle.em_latch.specs.Storage.{offsets};

    ghost Value = { Registers };

    ghost coded = { registers_code };

    ghost view = { λ latches. words_at offsets latches.words };
}

impl Latches {
    /// No cause set, none let through to the line, and nothing counted.
    pub fn new() -> Latches
        ensures { result ≡ fresh }
    {
        Latches { words: [0; WORDS] }
    }

    /// Causes, mask and counters with these words, each at its place.
    pub fn of_words(words: [u32; WORDS]) -> Latches
        ensures { result ≡ words_at offsets words }
    {
        Latches { words }
    }

    /// All words: the causes, their mask, and each counter's at the place that its row names.
    pub fn words(&self) -> &[u32; WORDS]
        ensures words { result.now ≡ registers.words_of offsets self.now }
        ensures latches { words_at offsets result.now ≡ self.now }
    {
        &self.words
    }

    /// The same causes, mask and counters once more.
    pub fn copy(&self) -> Latches
        ensures { result ≡ self.now }
    {
        Latches { words: self.words }
    }

    /// Whether the register is one of these: the condition of `look`, `read` and `write`.
    #[inline(always)]
    pub fn holds(&self, reg: Reg) -> bool
        ensures { result ≡ is_latched reg }
    {
        matches!(reg.row().kind, Kind::Interrupt | Kind::Counter)
    }

    /// What a read of the register gives, with nothing cleared.
    #[inline(always)]
    pub fn look(&self, reg: Reg) -> u32
        requires { IsLatched reg }
        ensures { result ≡ gives self.now reg }
    {
        match reg {
            Reg::Ics | Reg::Imc => 0,
            _ => self.word(reg),
        }
    }

    /// Reads a register. A read of ICR or of a counter clears it; of a pair, the read of the high half clears both
    /// halves, and that of the low half none.
    #[inline(always)]
    pub fn read(&mut self, reg: Reg) -> (u32, LatchUndo)
        requires { IsLatched reg }
        ensures value { result.0 ≡ gives self.old reg }
        ensures state { self.new ≡ after_read self.old reg }
        ensures reverses { Reverses self.old self.new result.1 }
    {
        let mut undo = LatchUndo::none();
        let value = match reg {
            Reg::Imc | Reg::Ics => 0,
            Reg::Ims | Reg::Gorcl | Reg::Gotcl | Reg::Torl | Reg::Totl => self.word(reg),
            Reg::Gorch => self.clear_both(Reg::Gorcl, Reg::Gorch, &mut undo),
            Reg::Gotch => self.clear_both(Reg::Gotcl, Reg::Gotch, &mut undo),
            Reg::Torh => self.clear_both(Reg::Torl, Reg::Torh, &mut undo),
            Reg::Toth => self.clear_both(Reg::Totl, Reg::Toth, &mut undo),
            _ => self.clear(reg, &mut undo),
        };
        (value, undo)
    }

    /// Writes a register: ICS and IMS set bits, ICR and IMC clear them, and a counter stays.
    #[inline(always)]
    pub fn write(&mut self, reg: Reg, value: u32) -> LatchUndo
        requires { IsLatched reg }
        ensures state { self.new ≡ after_write self.old reg value }
        ensures reverses { Reverses self.old self.new result }
    {
        let causes = self.word(Reg::Icr);
        let mask = self.word(Reg::Ims);
        let mut undo = LatchUndo::none();
        match reg {
            Reg::Icr => self.replace(Reg::Icr, causes & !value, &mut undo),
            Reg::Ics => self.replace(Reg::Icr, causes | (value & CAUSE_BITS), &mut undo),
            Reg::Ims => self.replace(Reg::Ims, mask | (value & CAUSE_BITS), &mut undo),
            Reg::Imc => self.replace(Reg::Ims, mask & !value, &mut undo),
            _ => {}
        }
        undo
    }

    /// Sets causes in ICR.
    #[inline(always)]
    pub fn raise(&mut self, causes: u32) -> LatchUndo
        ensures state { self.new ≡ after_raise self.old causes }
        ensures octets { octets_of result ≤ octets_for causes }
        ensures reverses { Reverses self.old self.new result }
    {
        let mut undo = LatchUndo::none();
        self.raise_into(causes, &mut undo);
        undo
    }

    /// Steps a counter by some number; it stops at its greatest value.
    #[inline(always)]
    pub fn count(&mut self, counter: Counter, by: u32) -> LatchUndo
        ensures state { self.new ≡ after_count self.old counter by }
        ensures octets { octets_of result ≤ octets_for_count counter by }
        ensures reverses { Reverses self.old self.new result }
    {
        let mut undo = LatchUndo::none();
        self.count_into(counter, by, &mut undo);
        undo
    }

    // What a frame does to the latches goes into one record: each change adds its growths to it.

    /// Sets causes in ICR, and adds the growth to a record.
    #[inline(always)]
    pub fn raise_into(&mut self, causes: u32, undo: &mut LatchUndo)
        requires { octets_of undo.old + octets_for causes ≤ MOST_OCTETS }
        ensures state { self.new ≡ after_raise self.old causes }
        ensures octets { octets_of undo.new ≤ octets_of undo.old + octets_for causes }
        ensures reverses { (base : Registers) → Reverses base self.old undo.old → Reverses base self.new undo.new }
    {
        let set = self.word(Reg::Icr);
        self.grow_if(Reg::Icr, causes - (set & causes), undo);
    }

    /// Steps a counter by some number, and adds the growths to a record.
    #[inline(always)]
    pub fn count_into(&mut self, counter: Counter, by: u32, undo: &mut LatchUndo)
        requires { octets_of undo.old + octets_for_count counter by ≤ MOST_OCTETS }
        ensures state { self.new ≡ after_count self.old counter by }
        ensures octets { octets_of undo.new ≤ octets_of undo.old + octets_for_count counter by }
        ensures reverses { (base : Registers) → Reverses base self.old undo.old → Reverses base self.new undo.new }
    {
        match counter {
            Counter::Gorc => self.count_pair(Reg::Gorcl, Reg::Gorch, by, undo),
            Counter::Gotc => self.count_pair(Reg::Gotcl, Reg::Gotch, by, undo),
            Counter::Tor => self.count_pair(Reg::Torl, Reg::Torh, by, undo),
            Counter::Tot => self.count_pair(Reg::Totl, Reg::Toth, by, undo),
            _ => {
                let reg = counter.reg();
                let step = by.min(u32::MAX - self.word(reg));
                self.grow(reg, step, undo);
            }
        }
    }

    /// Whether the interrupt line is asserted: a cause is set that the mask lets through.
    pub fn line(&self) -> bool
        ensures { IsTrue result ↔ IsAsserted self.now }
    {
        self.word(Reg::Icr) & self.word(Reg::Ims) != 0
    }

    /// Takes back the changes that gave out this record.
    #[inline(always)]
    pub fn put_back(&mut self, taken: LatchUndo)
        ensures { self.new ≡ undo self.old taken }
    {
        let mut left = taken;
        while let Some(Growth { place, by }) = left.pop() {
            self.shrink(place, by);
        }
    }

    /// A register's word.
    #[inline(always)]
    fn word(&self, reg: Reg) -> u32
        requires { IsWord reg }
        ensures { result ≡ registers.at self.now (offset_of reg) }
    {
        self.words[usize::from(place_of(reg))]
    }

    /// Stores the word at a place, and gives what it was.
    #[inline(always)]
    fn swap(&mut self, place: u8, value: u32) -> u32
        requires { place < WORDS }
        ensures old { map.get self.old (slice_index offsets place) ≡ Some result }
        ensures state { self.new ≡ map.insert self.old (slice_index offsets place) value }
    {
        std::mem::replace(&mut self.words[usize::from(place)], value)
    }

    /// Makes the word at a place what it was before it grew.
    #[inline(always)]
    fn shrink(&mut self, place: u8, by: u32)
        requires { place < WORDS }
        ensures { self.new ≡ shrink self.old (record { at = slice_index offsets place; by = by }) }
    {
        let now = self.words[usize::from(place)];
        let _ = self.swap(place, now.wrapping_sub(by));
    }

    /// Lets a word grow, modulo 2^32, and adds that to a record.
    #[inline(always)]
    fn grow(&mut self, reg: Reg, by: u32, undo: &mut LatchUndo)
        requires word { IsWord reg }
        requires room { octets_of undo.old + octets_for by ≤ MOST_OCTETS }
        ensures state { self.new
            ≡ map.insert self.old (offset_of reg) (grown (registers.at self.old (offset_of reg)) by) }
        ensures octets { octets_of undo.new ≡ octets_of undo.old + octets_for by }
        ensures reverses { (base : Registers) → Reverses base self.old undo.old → Reverses base self.new undo.new }
    {
        let place = place_of(reg);
        let value = self.word(reg).wrapping_add(by);
        let _ = self.swap(place, value);
        undo.push(Growth { place, by });
    }

    /// Lets a word grow by what may be nothing, and adds that to a record where it is not: the causes are mostly set
    /// already, and the high half of a pair seldom grows.
    #[inline(always)]
    fn grow_if(&mut self, reg: Reg, by: u32, undo: &mut LatchUndo)
        requires word { IsWord reg }
        requires room { octets_of undo.old + octets_for by ≤ MOST_OCTETS }
        ensures state { self.new
            ≡ map.insert self.old (offset_of reg) (grown (registers.at self.old (offset_of reg)) by) }
        ensures octets { octets_of undo.new ≤ octets_of undo.old + octets_for by }
        ensures reverses { (base : Registers) → Reverses base self.old undo.old → Reverses base self.new undo.new }
    {
        if by == 0 {
            self.has_word(reg);
            return;
        }
        self.grow(reg, by, undo);
    }

    /// A register's word is there, so that to store it as it is changes nothing.
    #[inline(always)]
    fn has_word(&self, reg: Reg)
        requires { IsWord reg }
        ensures there { map.get self.now (offset_of reg) ≡ Some (registers.at self.now (offset_of reg)) }
        ensures small { registers.at self.now (offset_of reg) < 2 ^ 32 }
    {
        let _ = &self.words;
        let _ = self.word(reg);
    }

    /// Stores a word, and adds its growth to a record: five octets at most.
    #[inline(always)]
    fn replace(&mut self, reg: Reg, value: u32, undo: &mut LatchUndo)
        requires word { IsWord reg }
        requires room { octets_of undo.old + 5 ≤ MOST_OCTETS }
        ensures state { self.new ≡ map.insert self.old (offset_of reg) value }
        ensures octets { octets_of undo.new ≤ octets_of undo.old + 5 }
        ensures reverses { (base : Registers) → Reverses base self.old undo.old → Reverses base self.new undo.new }
    {
        let by = value.wrapping_sub(self.word(reg));
        self.grow(reg, by, undo);
    }

    /// Clears a word, adds its growth to a record, and gives what it was.
    #[inline(always)]
    fn clear(&mut self, reg: Reg, undo: &mut LatchUndo) -> u32
        requires word { IsWord reg }
        requires room { octets_of undo.old + 5 ≤ MOST_OCTETS }
        ensures value { result ≡ registers.at self.old (offset_of reg) }
        ensures state { self.new ≡ map.insert self.old (offset_of reg) 0 }
        ensures reverses { (base : Registers) → Reverses base self.old undo.old → Reverses base self.new undo.new }
    {
        let value = self.word(reg);
        self.replace(reg, 0, undo);
        value
    }

    /// Clears both words of a pair, and gives the high one.
    #[inline(never)]
    fn clear_both(&mut self, low: Reg, high: Reg, undo: &mut LatchUndo) -> u32
        requires low { IsWord low }
        requires high { IsWord high }
        requires room { octets_of undo.old ≡ 0 }
        ensures value { result ≡ registers.at self.old (offset_of high) }
        ensures state { self.new ≡ after_pair_clear self.old low high }
        ensures reverses { (base : Registers) → Reverses base self.old undo.old → Reverses base self.new undo.new }
    {
        let value = self.word(high);
        self.replace(low, 0, undo);
        self.replace(high, 0, undo);
        value
    }

    /// Steps a pair as one number.
    #[inline(always)]
    fn count_pair(&mut self, low: Reg, high: Reg, by: u32, undo: &mut LatchUndo)
        requires low { IsWord low }
        requires high { IsWord high }
        requires apart { offset_of high ≢ offset_of low }
        requires room { octets_of undo.old + (octets_for by + 1) ≤ MOST_OCTETS }
        ensures state { self.new ≡ after_pair_count self.old low high by }
        ensures octets { octets_of undo.new ≤ octets_of undo.old + (octets_for by + 1) }
        ensures reverses { (base : Registers) → Reverses base self.old undo.old → Reverses base self.new undo.new }
    {
        let low_word = u64::from(self.word(low));
        let old = low_word + WORD_RANGE * u64::from(self.word(high));
        let step = u64::from(by).min(u64::MAX - old);
        let carry = (low_word + step) / WORD_RANGE;
        self.grow(low, step as u32, undo);
        self.grow_if(high, carry as u32, undo);
    }
}

impl Reversible for Latches {
    type Undo = LatchUndo;

    ghost use Rattle.em_latch.specs.Latches.{Fits, undo};

    ghost fits = { Fits };

    ghost undone = { undo };

    fn take_back(&mut self, undo: LatchUndo) {
        self.put_back(undo);
    }
}

/// The place of the register's word, as a growth names it.
#[inline(always)]
pub(crate) fn place_of(reg: Reg) -> u8
    requires { IsWord reg }
    ensures within { result < WORDS }
    ensures place { slice_index offsets result ≡ offset_of reg }
{
    match reg {
        Reg::Icr => CAUSES,
        Reg::Ims => MASK,
        _ => COUNTERS + reg.row().place as u8,
    }
}
