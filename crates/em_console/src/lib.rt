//! A session that one types into: a line is asked for, its answer is told at once, and only then comes the next line.
//!
//! [`serve`] joins the two: what answers ([`Answers`]) and where lines come from ([`Console`]). [`LineConsole`] is a
//! console over a reader and a writer, such as standard input and standard output. [`Objects`] makes a session answer in
//! JSON.
#![tactic(auto)]

mod console;
mod fault;
mod lines;
mod objects;
mod reading;
mod serving;
mod session;
mod standing;

pub use console::Console;
pub use fault::ConsoleFault;
pub use lines::{LineConsole, prompt_for};
pub use objects::{Objects, write_opening};
pub use reading::MOST_LINE;
pub use serving::{End, LONG_LINE, serve};
pub use session::{Answers, Flow, Stands};
pub use standing::{Became, Standing};
