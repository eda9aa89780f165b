//! What the programs with a debugger's language begin with: a script is read whole, from a file or from standard input; it
//! is said what is wrong with its lines; and words of a command line are the same in each program.
#![tactic(auto)]

mod bad;
mod files;
mod head;
mod numbers;
mod script;
mod words;

pub use bad::{write_wrong_of, wrong_in};
pub use files::{InputRefused, input_of, is_one_file};
pub use head::{Head, take_head};
pub use numbers::{profile_of, size_of};
pub use script::{InputFault, MOST_INPUT, is_compressed, read_input};
pub use words::{BASES, BUDGETS, MACS, MachineWords, PROFILES, SIZES, WordRefused};
