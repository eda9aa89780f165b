//! What lines of a script print of a machine: answers of events, what was refused, registers and the wire.
#![tactic(auto)]

mod output;
mod registers;
mod wire;

pub use output::{
    write_answer, write_back, write_bad_line, write_bit, write_count, write_done, write_empty,
    write_octets, write_refusal,
};
pub use registers::write_registers;
pub use wire::write_wire;
