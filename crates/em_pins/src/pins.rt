//! The pins of EECD, and what the part behind them has heard.
ghost use Rattle.std.specs.Prelude.{◌≡◌, ◌↔◌, ◌<◌, ◌∷◌, [], if◌then◌else◌, IfSome, IsNone};
ghost use Rattle.em_pins.specs.Pins.{IsState, State, at_rest, after_write, bit, bit_in, bit_out, clocked, selected, data_out, eecd};

use em_eeprom::Eeprom;
use em_mem::Reversible;
use std::marker::Model;

/// SK, the clock: bit 0.
const SK: u32 = 0;

/// CS, which selects the part: bit 1.
const CS: u32 = 1;

/// DI, the data to the part: bit 2.
const DI: u32 = 2;

/// REQ, by which software asks for the pins: bit 6.
const REQ: u32 = 6;

/// What a write stores: SK, CS, DI, FWE and REQ.
const KEPT: u32 = 0x0000_0077;

/// What is kept of the pins lies below this.
const PINS_RANGE: u32 = 0x80;

/// FWE 01b: flash is not written.
const FWE_NO_WRITES: u8 = 0x10;

/// DO, the data from the part: bit 3.
const DO: u32 = 0x0000_0008;

/// GNT, which follows REQ: bit 7.
const GNT: u32 = 0x0000_0080;

/// PRES, that there is an EEPROM: bit 8.
const PRES: u32 = 0x0000_0100;

/// How many bits a command has.
const COMMAND_BITS: u8 = 9;

/// What a command that reads has before its address of six bits: 110b.
const READ: u16 = 6;

/// How many words there are.
const WORDS: u16 = 64;

/// How many bits a word has.
const WORD_BITS: u16 = 16;

/// How many bits all words have.
const ALL_BITS: u16 = WORDS * WORD_BITS;

/// What was written to the pins last, and what the part has heard since CS rose: how many bits, the bits, and how often SK
/// fell since the ninth.
#[derive(Clone, Copy, PartialEq, Eq, Debug)]
pub struct Pins {
    pins: u8,
    count: u8,
    taken: u16,
    falls: u16,
}

impl Model for Pins {
    ghost use Rattle.em_pins.specs.Pins.{State, IsState};

    ghost Value = { State };

    ghost view = { λ p. record { pins = p.pins; count = p.count; taken = p.taken; falls = p.falls } };

    ghost invariant = { λ p. IsState (record { pins = p.pins; count = p.count; taken = p.taken; falls = p.falls }) };

    ghost inverse = { λ s. record { pins = s.pins; count = s.count; taken = s.taken; falls = s.falls } };
}

/// What takes a write of EECD back.
#[derive(Clone, Copy, PartialEq, Eq, Debug)]
pub struct PinsUndo {
    old: Pins,
}

impl Model for PinsUndo {
    ghost use Rattle.em_pins.specs.Pins.{State};

    ghost Value = { State };

    ghost view = { λ u. u.old };

    ghost inverse = { λ s. record { old = s } };
}

impl Pins {
    /// The pins before the first write.
    pub fn new() -> Pins
        ensures { result ≡ at_rest }
    {
        Pins {
            pins: FWE_NO_WRITES,
            count: 0,
            taken: 0,
            falls: 0,
        }
    }

    /// What was written to the pins last, how many bits came in since CS rose, the bits, and how often SK fell since the
    /// ninth.
    pub fn state(&self) -> [u32; 4]
        ensures state { result ≡ self.now.pins ∷ self.now.count ∷ self.now.taken ∷ self.now.falls ∷ [] }
        ensures can_be { IsState self.now }
    {
        [
            u32::from(self.pins),
            u32::from(self.count),
            u32::from(self.taken),
            u32::from(self.falls),
        ]
    }

    /// Pins that keep this; none where pins can not.
    pub fn of_state(pins: u32, count: u32, taken: u32, falls: u32) -> Option<Pins>
        ensures some { IfSome result (λ made.
            made ≡ record { pins = pins; count = count; taken = taken; falls = falls }) }
        ensures none { IsNone result ↔
            (IsState (record { pins = pins; count = count; taken = taken; falls = falls }) → ⊥) }
    {
        if pins >= PINS_RANGE || count > u32::from(COMMAND_BITS) || falls > u32::from(ALL_BITS) {
            return None;
        }
        if taken >= 1 << count {
            return None;
        }
        Some(Pins {
            pins: pins as u8,
            count: count as u8,
            taken: taken as u16,
            falls: falls as u16,
        })
    }

    /// What EECD says, over an EEPROM.
    pub fn read(&self, eeprom: &Eeprom) -> u32
        ensures { result ≡ eecd eeprom.now self.now }
    {
        let data = if self.data_out(eeprom) { DO } else { 0 };
        let granted = if is_set(u32::from(self.pins), REQ) {
            GNT
        } else {
            0
        };
        u32::from(self.pins) + data + granted + PRES
    }

    /// A write of EECD.
    pub fn write(&mut self, value: u32) -> PinsUndo
        ensures state { self.new ≡ after_write self.old value }
        ensures undo { result ≡ self.old }
    {
        let old = *self;
        if is_set(value, CS) {
            self.select();
            self.clock(value);
        }
        self.pins = (value & KEPT) as u8;
        PinsUndo { old }
    }

    /// CS rises, or was high: where it rises, what came in is forgotten.
    fn select(&mut self)
        ensures { self.new ≡ selected self.old }
    {
        if !is_set(u32::from(self.pins), CS) {
            self.count = 0;
            self.taken = 0;
            self.falls = 0;
        }
    }

    /// SK rises, falls or stays.
    fn clock(&mut self, value: u32)
        ensures { self.new ≡ clocked self.old value }
    {
        let was = is_set(u32::from(self.pins), SK);
        let is = is_set(value, SK);
        if !was && is {
            self.bit_in((value >> DI & 1) as u16);
        } else if was && !is {
            self.bit_out();
        }
    }

    /// A bit comes in.
    fn bit_in(&mut self, bit: u16)
        requires { bit < 2 }
        ensures { self.new ≡ bit_in self.old bit }
    {
        if self.count < COMMAND_BITS {
            self.count += 1;
            self.taken = 2 * self.taken + bit;
        }
    }

    /// The next bit is given, where a command is whole.
    fn bit_out(&mut self)
        ensures { self.new ≡ bit_out self.old }
    {
        if self.count < COMMAND_BITS {
            return;
        }
        self.falls = if self.falls < ALL_BITS {
            self.falls + 1
        } else {
            1
        };
    }

    /// DO.
    fn data_out(&self, eeprom: &Eeprom) -> bool
        ensures { data_out eeprom.now self.now ≡ (if result then 1 else 0) }
    {
        let reading = is_set(u32::from(self.pins), CS)
            && self.count == COMMAND_BITS
            && self.taken / WORDS == READ;
        if !reading {
            return true;
        }
        if self.falls == 0 {
            return false;
        }
        let place = WORD_BITS * (self.taken % WORDS) + self.falls - 1;
        let word = eeprom.word((place / WORD_BITS % WORDS) as u8);
        is_set(
            u32::from(word),
            u32::from(WORD_BITS - 1 - place % WORD_BITS),
        )
    }
}

impl Reversible for Pins {
    type Undo = PinsUndo;

    ghost use Rattle.em_pins.specs.Pins.{Fits, undo};

    ghost fits = { Fits };

    ghost undone = { undo };

    fn take_back(&mut self, undo: PinsUndo) {
        *self = undo.old;
    }
}

/// Whether a bit of a number is 1.
fn is_set(value: u32, k: u32) -> bool
    requires { k < 32 }
    ensures { result ≡ bit value k }
{
    value >> k & 1 == 1
}
