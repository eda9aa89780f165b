//! The filters of the receive side: which frames the adapter takes, and why it drops the others
//! (manual, chapter on receive description, packet address filtering).
#![tactic(auto)]

mod address;
mod bits;
mod control;
mod filters;
mod outcome;
mod vlan;

pub use address::{hash_of, is_inexact};
pub use control::is_other_control;
pub use em_address::{Kind, kind_of};
pub use filters::{CHECK_OCTETS, longest, passes_address, verdict};
pub use outcome::Verdict;
pub use vlan::{passes_cfi, passes_vlan, tagged};
