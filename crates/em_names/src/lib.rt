//! The manual's names of the registers, and of their bits and fields.
#![tactic(auto)]

mod bits;
mod field;
mod names;
mod near;
mod phy;
mod show;

pub use bits::fields;
pub use field::{Field, Form};
pub use names::{LONGEST, name, parse, parse_in};
pub use near::{nearest, nearest_in};
pub use phy::phy_name;
pub use show::{number_in, write_bits, write_field, write_low, write_name, write_register};
