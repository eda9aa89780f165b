//! Pieces of JSON to a writer: strings of octets that may be any, lists of them, numbers and words.
#![tactic(auto)]

mod numbers;
mod strings;

pub use numbers::{write_flag, write_hex, write_number, write_numbers};
pub use strings::{write_string, write_strings};
