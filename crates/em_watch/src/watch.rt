//! What is watched, and what is seen of it.

use crate::range::{MOST_WATCHED, MemoryRange};
use em_phy::PhyWord;
use em_regs::Reg;

/// What is watched.
#[derive(Clone, Copy, PartialEq, Eq, Debug)]
pub enum Watch {
    /// A register, as a look at it shows it.
    Register(Reg),
    /// Octets of guest memory.
    Octets(MemoryRange),
    /// The interrupt line.
    Line,
    /// The link.
    Link,
    /// How many frames lie in the FIFO.
    Frames,
    /// How many frames were sent.
    Sent,
    /// A word of the PHY, as a read of it by MDIC gives it.
    Phy(PhyWord),
}

/// What is seen of it in one state.
#[derive(Clone, Copy, PartialEq, Eq, Debug)]
pub enum Sight {
    /// The octets leave guest memory, or the machine's profile has no such register, or no PHY.
    Nothing,
    /// What a read of the register would give, or of the word by MDIC.
    Value(u32),
    /// The octets, and zeros behind them.
    Octets([u8; MOST_WATCHED]),
    /// Whether the interrupt line is asserted.
    Line(bool),
    /// Whether the link is up.
    Link(bool),
    /// How many frames there are.
    Count(usize),
}
