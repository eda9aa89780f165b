//! Laws of the adapter's steps: the fate of an arrival, a frame in pieces, registers without a rule.
#![tactic(auto)]

pub mod laws;
