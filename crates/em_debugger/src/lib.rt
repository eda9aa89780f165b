//! A debugger that one types into: each line is performed on a tape of lines, or looks at the machine at its place.
//!
//! [`Debugger`] answers a line; files are reached through a [`Disk`]. [docs/debugger.md](../../../docs/debugger.md)
//! shows it at work.
#![tactic(auto)]

mod accessed;
mod accesses;
mod answering;
mod bench_looks;
mod bookmarks;
mod came;
mod compare;
mod debugger;
mod deeper;
mod departures;
mod disk;
mod effect;
mod engines;
mod excerpt;
mod expected;
mod files;
mod history;
mod laws;
mod listing;
mod lost;
mod marks;
mod matter;
mod moves;
mod next;
mod nowhere;
mod offers;
mod performing;
mod place;
mod played;
mod reading;
mod search;
mod sending;
mod standing;
mod stops;
mod told;
mod warned;
mod warnings;
mod who;
mod why;
mod why_now;

pub use compare::{Compared, Differing};
pub use debugger::Debugger;
pub use disk::{Disk, DiskFault};
pub use expected::Score;
pub use files::Added;
pub use laws::{saved_lines_are_read, the_found_event_led};
