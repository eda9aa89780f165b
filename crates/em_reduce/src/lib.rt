//! A list made short, as long as what is left still has what is asked for: delta debugging.
#![tactic(auto)]

mod fewer;

pub use fewer::{Trial, reduce};
