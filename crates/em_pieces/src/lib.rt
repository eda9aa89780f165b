//! Texts of one line, piece by piece: what tells of a machine is made of these.
#![tactic(auto)]

mod piece;

pub use piece::{Piece, write_text};
