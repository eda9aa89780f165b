//! What a debugger says of a machine at rest: a register, a ring, frames, guest memory, what is watched, and what an
//! event changed.
#![tactic(auto)]

mod effects;
mod frames;
mod numbers;
mod sights;
mod views;

pub use effects::write_effect;
pub use frames::{show_sent, show_waiting};
pub use numbers::{write_count, write_counted, write_number, write_short};
pub use sights::{watch_of, write_difference, write_sight, write_watch};
pub use views::{show_memory, show_register, show_ring};
