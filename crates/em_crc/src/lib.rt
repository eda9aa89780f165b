//! The frame check sequence that follows an Ethernet frame on the wire: a CRC-32 (IEEE 802.3, clause 3).
#![tactic(auto)]

mod crc;
pub mod laws;

pub use crc::{check_sequence, crc32};
