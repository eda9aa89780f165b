//! What a destination address names: one adapter, a group of them, or all.
#![tactic(auto)]

mod kind;

pub use kind::{Kind, kind_of};
