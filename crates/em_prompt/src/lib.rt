//! What a line says that somebody types into a debugger: a line of em_bench's language, or a command of the debugger's
//! own; or what is wrong with it. [docs/language.md](../../../docs/language.md) has every line.
//!
//! Nothing is performed here, and no memory is taken.
#![tactic(auto)]

mod bench_line;
mod bits;
mod command;
mod fault;
mod foreign;
mod help;
mod kept;
mod kind;
mod near;
mod nowhere;
mod number;
mod prompt;
mod register;
mod says;
mod script_line;
mod short;
mod told;
mod typed;
mod value;
mod watch;
mod watched_len;
mod word;
mod words;
mod wrong;

pub use bench_line::BenchLine;
pub use command::Command;
pub use fault::Fault;
pub use help::{write_help, write_whole_help};
pub use kind::{Choice, Kind};
pub use near::{begins, is_near};
pub use nowhere::{Nowhere, meant, nowhere_said};
pub use number::Number;
pub use prompt::prompted;
pub use script_line::{is_plain, scripted};
pub use typed::{Lines, Matter, Shown, Side, Target, Typed, Until, Which};
pub use watch::Watch;
pub use watched_len::WatchedLen;
pub use wrong::{Wrong, write_wrong};
