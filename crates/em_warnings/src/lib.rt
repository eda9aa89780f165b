//! What real drivers get wrong: rules with names, by which an access of a register has warnings.
#![tactic(auto)]

mod before;
mod descriptors;
mod flaw;
mod heads;
pub mod laws;
mod lines;
mod overlaps;
mod owned;
mod reads;
mod rings;
mod rule;
mod rules;
mod said;
mod warning;
mod write_line;
mod written;

pub use lines::{Found, count_found, found_of, is_asked, write_found};
pub use owned::written_while_owned;
pub use reads::read_again;
pub use rule::Rule;
pub use rules::{RULES, alone, warnings_of};
pub use said::{ALL_RULES, write_said, write_warning};
pub use warning::Warning;
