//! A whole machine as octets: [`store`] writes it down, and [`load`] makes it again.
//!
//! The journal is not stored: a loaded machine has an empty one.
#![tactic(auto)]

mod form;
mod front;
mod known;
pub mod laws;
mod loading;
mod machine;
mod numbers;
mod parts;
mod reader;
mod refusal;
mod storing;
mod writer;

pub use loading::load;
pub use refusal::StoredRefusal;
pub use storing::store;
