//! The words of the EEPROM.
ghost use Rattle.std.specs.Prelude.{◌≡◌, ◌≤◌, ◌↔◌, IsTrue, slice_range, replicate};
ghost use Rattle.em_eeprom.specs.Eeprom.{IsEeprom, word_at, mac_of, words_of_mac, IsSummed};

use std::marker::Model;

/// How many words the EEPROM has.
pub const WORDS: usize = 64;

/// What the words sum to, modulo 65,536 (manual, chapter on the EEPROM).
pub const CHECKSUM: u16 = 0xBABA;

/// The word that makes the sum come out.
const CHECKSUM_WORD: usize = 63;

/// The EEPROM's words. Clauses see them as a list.
#[derive(Clone, Copy, PartialEq, Eq, Debug)]
pub struct Eeprom {
    words: [u16; WORDS],
}

impl Model for Eeprom {
    ghost use Rattle.std.specs.Prelude.{List, ℕ};

    ghost Value = { List ℕ };

    ghost view = { λ eeprom. eeprom.words };

    ghost use Rattle.em_eeprom.specs.Eeprom.{IsEeprom};

    ghost invariant = { λ eeprom. IsEeprom eeprom.words };

    ghost inverse = { λ words. record { words = words } };
}

impl Eeprom {
    /// An EEPROM with these words.
    pub fn of_words(words: [u16; WORDS]) -> Eeprom
        ensures words { result ≡ words }
        ensures whole { IsEeprom result }
    {
        Eeprom { words }
    }

    /// An EEPROM with this Ethernet address in words 0 to 2, a last word that makes the sum come
    /// out, and zero between them.
    pub fn of_mac(mac: [u8; 6]) -> Eeprom
        ensures words { result ≡ words_of_mac mac }
        ensures whole { IsEeprom result }
        ensures mac { mac_of result ≡ mac }
        ensures zeros { slice_range result 3 63 ≡ replicate 60 0 }
        ensures sum { IsSummed result }
    {
        let mut words = [0; WORDS];
        words[0] = u16::from_le_bytes([mac[0], mac[1]]);
        words[1] = u16::from_le_bytes([mac[2], mac[3]]);
        words[2] = u16::from_le_bytes([mac[4], mac[5]]);
        let sum = words[0].wrapping_add(words[1]).wrapping_add(words[2]);
        words[CHECKSUM_WORD] = CHECKSUM.wrapping_sub(sum);
        Eeprom::of_words(words)
    }

    /// All words.
    pub fn words(&self) -> &[u16; WORDS]
        ensures { result.now ≡ self.now }
    {
        &self.words
    }

    /// The word at an address, 0 above 63.
    pub fn word(&self, addr: u8) -> u16
        ensures word { result ≡ word_at self.now addr }
        ensures above { 64 ≤ addr → result ≡ 0 }
    {
        self.words.get(usize::from(addr)).copied().unwrap_or(0)
    }

    /// Whether the words sum to BABA, modulo 65,536.
    pub fn checksum_ok(&self) -> bool
        ensures { IsTrue result ↔ IsSummed self.now }
    {
        let words = &self.words;
        let mut sum = 0u32;
        for word in words {
            sum += u32::from(*word);
        }
        sum % 0x1_0000 == u32::from(CHECKSUM)
    }

    /// The Ethernet address of words 0 to 2: octet 0 is the low half of word 0.
    pub fn mac(&self) -> [u8; 6]
        ensures mac { result ≡ mac_of self.now }
        ensures whole { IsEeprom self.now }
    {
        let [a, b] = self.words[0].to_le_bytes();
        let [c, d] = self.words[1].to_le_bytes();
        let [e, f] = self.words[2].to_le_bytes();
        [a, b, c, d, e, f]
    }
}
