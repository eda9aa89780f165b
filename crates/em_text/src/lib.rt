//! Octets of text, apart from any machine: the lines of a script, the words of a line, the numbers
//! and octets that words write, a whole script from a reader, and texts to a writer.
//!
//! Nothing here but [`read_script`], [`octets_into`] and [`Words::octets_into`] takes memory.
#![tactic(auto)]

mod digits;
mod lines;
mod numbers;
mod reader;
mod words;
mod writer;

pub use lines::next_line;
pub use numbers::{decimal_number, is_octets, octets_into};
pub use reader::{MOST_SCRIPT, ReadFault, read_script};
pub use words::{Words, is_name};
pub use writer::{
    WriteFailed, octet_digits, write_number_line, write_numbers_line, write_octets,
    write_octets_line, write_pieces, write_register_line, write_value, write_whole,
};
