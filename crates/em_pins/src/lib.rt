//! The EEPROM by its pins, as EECD has them: a Microwire part of 64 words of 16 bits, which gives its words and stores none.
#![tactic(auto)]

pub mod laws;
mod pins;

pub use pins::{Pins, PinsUndo};
