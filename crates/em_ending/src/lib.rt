//! A run of the bench program from its session to its end: the script played and written out, and for each ending the
//! status and the line on standard error.
//!
//! | Ending | Status | Line |
//! |---|---|---|
//! | no line was bad, help | 0 | none |
//! | a line was bad | 1 | none |
//! | the parser refused the words | 2 | the parser's own text |
//! | an option's value was refused | 2 | `em_bench: Mac`, `em_bench: Size` or `em_bench: Budget` |
//! | a fault of the run | 3 | `em_bench: Read`, `Write`, `TooLarge` or `Memory` |
#![tactic(auto)]

mod ending;
mod made;
mod playing;

pub use ending::Ending;
pub use made::session;
pub use playing::play;
