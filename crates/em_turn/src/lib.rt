//! What other actors do between two accesses of a driver: the turns of a plan, and the frames that
//! they bring.
#![tactic(auto)]

mod frame;
mod turn;

pub use frame::Frame;
pub use turn::{PlanRefused, Turn};
