//! A whole script: it is read, its lines are played one after another, and their answers are written (em_script plays
//! a line). [docs/language.md](../../../docs/language.md) has every line.
//!
//! A run that was kept as a script (em_kept) leads to the same machine when it is played: a law of `laws`.
#![tactic(auto)]

pub mod laws;
mod runner;
mod summary;

pub use runner::run;
pub use summary::Summary;
