//! Lines of scripts: lines of text, each of which does what it says (em_line) with a machine, and the text
//! that they print; em_run plays whole scripts. [docs/language.md](../../../docs/language.md) has every line.
//!
//! A line ends at a newline; lines are numbered from 1. A line that says nothing prints nothing.
//! What is refused prints `refused` and the name of the refusal. Any line that the language does not
//! have prints `bad line` and its number, and does nothing.
#![tactic(auto)]

mod call_events;
mod calling;
mod driver_answer;
mod driver_output;
mod driver_reply;
mod fault;
mod laws;
mod no_driver;
mod outcome;
mod play;
mod player;
mod printed;
mod reply;
mod seat;
mod session;

pub use fault::BenchFault;
pub use laws::{a_line_did_so, a_request_is_played_or_says_so};
pub use no_driver::NoDriver;
pub use outcome::{Outcome, Refused};
pub use player::Player;
pub use reply::show_look;
pub use session::Session;
