//! Calls of a driver.

use std::collections::VecDeque;

/// What a line asks a driver that stands.
#[derive(Drop)]
pub enum DriverCall {
    /// Send these packets.
    Send(VecDeque<Vec<u8>>),
    /// Receive at most so many packets.
    Receive(u32),
    /// Count packets and octets.
    Stats,
    /// Ask for the Ethernet address.
    Address,
    SetAddress([u8; 6]),
}
