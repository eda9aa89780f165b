//! A run of a machine, kept as lines of the script language while it happens: each event with its answer and with the
//! place in its caller's text, each refusal, and steps back. [docs/c-library.md](../../../docs/c-library.md) has the lines.
//!
//! Played again from the settings that the first line has, the lines lead to the same machine, by the same answers.
//!
//! Nothing here takes memory.
#![tactic(auto)]

mod answer;
mod back;
mod digits;
mod head;
pub mod laws;
mod line;
mod source;

pub use back::write_back;
pub use head::write_head;
pub use line::{write_event, write_refused};
pub use source::Source;
