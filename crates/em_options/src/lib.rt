//! The command line of the bench program: what its words ask for, and why they are refused.
#![tactic(auto)]

mod command;
mod help;
mod settings;

pub use command::options;
pub use settings::{Options, OptionsRefused};
