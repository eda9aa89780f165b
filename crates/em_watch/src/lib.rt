//! Who changed this last? Answered over the records of a machine's journal, without moving it.
#![tactic(auto)]

mod change;
mod difference;
mod effect;
mod octets;
mod range;
mod registers;
mod search;
mod traced;
mod watch;

pub use change::Change;
pub use difference::{Difference, difference_of};
pub use effect::{Effect, what};
pub use octets::{MemoryChange, MemoryChanges};
pub use range::{MOST_WATCHED, MemoryRange};
pub use registers::{RegisterChange, RegisterChanges};
pub use search::{ChangeIter, change_before, change_within, changes, last_change, seen, seen_back};
pub use watch::{Sight, Watch};
