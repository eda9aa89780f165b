//! The turns of other actors.
use crate::frame::Frame;
use std::collections::VecDeque;

/// What another actor does between two accesses of a driver.
#[derive(Drop)]
pub enum Turn {
    /// The wire brings a frame.
    Arrive(Frame),
    /// The receive engine handles one descriptor.
    RxStep,
    /// The transmit engine handles one descriptor.
    TxStep,
}

/// A plan for which memory was refused; it comes back.
#[derive(Drop)]
pub struct PlanRefused {
    pub plan: VecDeque<Vec<Turn>>,
}
