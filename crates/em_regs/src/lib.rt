//! The registers of the adapter by name, and the file of those that keep what software writes.
#![tactic(auto)]

mod bits;
pub mod laws;
mod profile;
mod reg;
mod reg_file;
mod ring;
mod setup;
mod table;

pub use bits::{Causes, Ctrl, Eerd, Rah, Rctl, Status, Tctl};
pub use profile::Profile;
pub use reg::Reg;
pub use reg_file::{RegFile, RegUndo};
pub use ring::{DESCRIPTOR_OCTETS, Ring, following};
pub use setup::{RxSetup, TxSetup, buffer_size};
pub use table::{COUNTER_WORDS, Kind, Row, SPACE, STORED_WORDS};
