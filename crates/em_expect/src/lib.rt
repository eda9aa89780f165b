//! Answers that a line expects: ` = 4` behind `r 000C0`. em_line takes the line apart, and says which event it is; here the
//! answer to that event is compared with the expected one. The value of a register is compared as a number, and a `-` stands
//! for a digit that does not matter.
//!
//! Texts are octets; a line has no newline at its end. Nothing here takes memory.
#![tactic(auto)]

mod agreement;
mod difference;

pub use agreement::agrees_of;
pub use difference::{register_of, write_difference};
