//! The PHY behind MDIC: 32 words of 16 bits, of which two say whether there is a link.
#![tactic(auto)]

pub mod laws;
mod phy;
mod word;

pub use phy::{Phy, PhyUndo, WORDS, asks_for_interrupt, word_as_read};
pub use word::PhyWord;
