//! The EEPROM: 64 words of 16 bits, of which the first three hold the Ethernet address.
#![tactic(auto)]

mod eeprom;

pub use eeprom::{Eeprom, WORDS};
