//! Frames of captures: into a machine, as lines of a script that bring them, and out of it, as a capture of what was sent.
#![tactic(auto)]

mod arrivals;
mod moment;
mod sent;

pub use arrivals::{Arrivals, LEAST_FRAME, arrivals_of, is_unpadded, write_arrival};
pub use moment::time_in;
pub use sent::write_sent;
