//! What a driver answers.

use em_driver::{Batch, Cause, DeviceStats, Stopped};
use std::collections::VecDeque;

/// What a driver answers to a line.
#[derive(Drop)]
pub enum DriverAnswer {
    /// To a start: why it stopped, if it did.
    Start(Option<Cause>),
    /// To a call that moves packets: those that came, and how many were moved or why it stopped.
    Batch(VecDeque<Vec<u8>>, Result<Batch, Stopped>),
    Stats(DeviceStats),
    Address([u8; 6]),
    /// That the Ethernet address was set.
    Set,
}
