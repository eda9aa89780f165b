//! What a debugger shows of a machine at rest: octets in lines, frames, and descriptor rings.
#![tactic(auto)]

mod bits;
mod descriptor;
mod descriptor_line;
mod extent;
mod frame;
mod lines;
mod piece;
mod ring;
mod ring_lines;
mod trouble;

pub use descriptor::{Bits, Descriptor, Fields, octets_at};
pub use descriptor_line::write_descriptor;
pub use extent::Extent;
pub use frame::{Heading, write_frame, write_stored_frame};
pub use lines::write_octet_lines;
pub use piece::{write_address, write_number};
pub use ring::{Owner, Side, SidedRing, owner_of};
pub use ring_lines::{MOST_SHOWN, write_ring};
pub use trouble::Trouble;
