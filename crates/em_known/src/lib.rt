//! Which differences between a log's answers and the model's are known: by the bits that differ, and by a cause that stands.
#![tactic(auto)]

mod bits;
mod causes;

pub use bits::{is_known, known_bits};
pub use causes::Causes;
