//! What calls of the driver answer.
ghost use Rattle.std.specs.Prelude.{◌≡◌};
ghost use Rattle.em_driver.specs.Outcome as outcome;
ghost use Rattle.em_driver.specs.Outcome.{code_of, name_of};

use em_step::Refusal;
use thiserror::Error;

/// What a call moved: so many packets, with so many events of its own.
#[derive(Clone, Copy, PartialEq, Eq, Debug)]
pub struct Batch {
    pub count: u32,
    pub events: u32,
}

/// A call that stopped before its end. The packets that it moved, and the events that it performed,
/// stand.
#[derive(Clone, Copy, PartialEq, Eq, Debug, Error)]
#[error("{}", self.cause.name())]
pub struct Stopped {
    pub count: u32,
    pub events: u32,
    pub cause: Cause,
}

/// A driver that was not started: the bus comes back, with the events that were performed on it.
#[derive(Debug, Drop)]
pub struct StartRefused<B> {
    pub bus: B,
    pub cause: Cause,
    pub events: u32,
}

/// Why a call of the driver stopped.
#[derive(Clone, Copy, PartialEq, Eq, Debug, Error)]
#[error("{}", self.name())]
pub enum Cause {
    /// A growth was refused.
    Memory = 9,
    /// The layout is not good.
    Layout = 10,
    /// The words of the EEPROM do not have the sum that they need.
    Checksum = 11,
    /// There is one queue, and its number is 0.
    Queue = 12,
    /// A packet to send outside 14 to 1,518 octets.
    PacketLength = 13,
    /// The device answered what this driver cannot use.
    Broken = 14,
}

impl Cause {
    /// The number of the cause (this project's profile).
    pub fn code(self) -> u32
        ensures { result ≡ code_of self }
    {
        self as u32
    }

    /// The name of the cause, as it is printed.
    pub fn name(self) -> &'static str
        ensures { result.now ≡ name_of self }
    {
        match self {
            Cause::Memory => "Memory",
            Cause::Layout => "Layout",
            Cause::Checksum => "Checksum",
            Cause::Queue => "Queue",
            Cause::PacketLength => "PacketLength",
            Cause::Broken => "Broken",
        }
    }
}

/// Why a call stops where an access is refused.
pub(crate) fn cause_of(refusal: Refusal) -> Cause
    ensures { result ≡ outcome.cause_of refusal }
{
    match refusal {
        Refusal::Memory => Cause::Memory,
        _ => Cause::Broken,
    }
}
