//! What an event was, in words: a note of em_trail as a text, for all who tell of events.
#![tactic(auto)]

mod note;

pub use note::{reason_name, register_of, write_note};
